//! What policies allow the principal of a session.

ghost use Rattle.std.specs.Prelude.{◌≡◌, IfOk, not};
ghost use Rattle.door_judge.specs.Coming.{Comes};
ghost use Rattle.door_meaning.specs.Conditions.{may};
ghost use Rattle.door_meaning.specs.Orders.{unless};
ghost use Rattle.door_meaning.specs.Replies as plain;
ghost use Rattle.door_meaning.specs.Replies.{reply_data};
ghost use Rattle.door_meaning.specs.declared.reply.Denial.TheVariants as denial;
ghost use Rattle.type_schema.specs.Views as view;

use crate::halt::Halt;
use data_meaning::Principal;
use data_members::allows;
use data_records::Database;
use door_meaning::{Denial, Reply};
use std::alloc::{AllocError, Global};
use type_schema::{FieldInfo, Right, TPolicy};

/// Whether the policy allows the principal of a session, which may have none.
pub(crate) fn permits(
    alloc: Global,
    d: &Database,
    policy: &TPolicy,
    id: u64,
    who: Option<Principal>,
) -> Result<bool, AllocError>
    ensures { IfOk result (λ b. b ≡ may d.now (view.policy_of policy.now) id who) }
{
    match who {
        Some(who) => allows(alloc, d, policy, who, id),
        None => Ok(false),
    }
}

/// The field may not be read or written.
fn denied(alloc: Global, field: &FieldInfo) -> Result<Reply, AllocError>
    ensures { IfOk result (λ reply. reply_data reply
        ≡ plain.Denied (denial.Field field.now.name)) }
{
    Ok(Reply::Denied(Denial::Field(field.name.copy(alloc)?)))
}

/// The policy is to allow the principal of a session the field of the record.
pub(crate) fn is_allowed(
    alloc: Global,
    d: &Database,
    field: &FieldInfo,
    policy: &TPolicy,
    id: u64,
    who: Option<Principal>,
) -> Result<(), Halt>
    ensures { Comes (unless (not (may d.now (view.policy_of policy.now) id who))
        (plain.Denied (denial.Field field.now.name))) (λ x. x) result }
{
    if permits(alloc, d, policy, id, who)? {
        return Ok(());
    }
    Err(Halt::Replied(denied(alloc, field)?))
}

/// The policy of the model is to allow the principal of a session the record.
pub(crate) fn has_right(
    alloc: Global,
    d: &Database,
    policy: &TPolicy,
    id: u64,
    who: Option<Principal>,
    right: Right,
) -> Result<(), Halt>
    ensures { Comes (unless (not (may d.now (view.policy_of policy.now) id who))
        (plain.Denied (denial.Right right))) (λ x. x) result }
{
    if permits(alloc, d, policy, id, who)? {
        return Ok(());
    }
    Err(Halt::Replied(Reply::Denied(Denial::Right(right))))
}
