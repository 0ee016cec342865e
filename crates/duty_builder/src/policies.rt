//! The formulas of policies, and their sizes.

ghost use Rattle.std.specs.Prelude.{◌≡◌, IfOk, true, min, map};
ghost use Rattle.type_schema.specs.SchemaViews.{added_of};
ghost use Rattle.type_schema.specs.Schema as plain;
ghost use Rattle.type_schema.specs.Views.{policy_of};
ghost use Rattle.duty_meaning.specs.Formulas as asked;
ghost use Rattle.duty_meaning.specs.Sizes as sizes;
ghost use Rattle.duty_writer.specs.Terms.{term_data};
ghost use Rattle.duty_writer.specs.Made.{Makes};
ghost use Rattle.duty_builder.specs.Values.{schema_in, written_upto, who_data};

use crate::formulas::write;
use crate::start::Start;
use crate::values::{End, Part, Scene, Who};
use duty_meaning::limits::LARGEST_SIZE;
use duty_writer::{MakeErr, Mode, Term, Writer};
use form_formula::Arena;
use std::alloc::{AllocError, Global};
use type_schema::TPolicy;

/// How deep a walk may go. Each form of an expression that is not done yet takes a few steps, and a
/// step takes some 435 bytes of the stack: two thirds of the 8 MB that a process has by default.
pub const MOST_FUEL: u32 = 12_000;

/// Writes whether a policy allows who is asked about its right on the record that a term is, where
/// so many added fields are written out; where the sign is not, that it does not.
pub fn allowed(
    w: &mut Writer,
    start: &Start<'_>,
    upto: usize,
    policy: &TPolicy,
    row: &Term<'_>,
    who: &Who<'_>,
    sign: bool,
    above: u32,
    fuel: u32,
) -> Result<u32, MakeErr>
    ensures { let c = start.now in Makes w.old result w.new
        (asked.is_allowed (schema_in c) (written_upto c upto) (policy_of policy.now)
        (term_data row.now) (who_data who.now) sign above) }
{
    match policy {
        TPolicy::Everyone => w.constant(sign),
        TPolicy::Nobody => w.constant(!sign),
        TPolicy::Fun(_, set) => {
            let none = Scene::Start(upto);
            let end = End::Term(row);
            let scene = Scene::Inner(&none, &end);
            write(w, start, &Part::Member(&scene, set, who, sign), above, fuel)
        }
    }
}

/// The size of a policy where so many added fields are written out. It stays at a million.
fn size_upto(
    alloc: Global,
    start: &Start<'_>,
    upto: usize,
    policy: &TPolicy,
) -> Result<u64, AllocError>
    ensures { let c = start.now in IfOk result (λ size. size ≡ min (sizes.policy_size_over
        (schema_in c) (written_upto c upto) (policy_of policy.now)) sizes.largest_size) }
{
    let mut w = Writer {
        arena: Arena::new(alloc)?,
        left: LARGEST_SIZE,
        mode: Mode::Count,
    };
    let row = Term::Bound(0, 0);
    let other = Term::Bound(0, 1);
    let who = Who::EachKind(&other);
    match allowed(&mut w, start, upto, policy, &row, &who, true, 2, MOST_FUEL) {
        Ok(_) => Ok(LARGEST_SIZE - w.left),
        Err(MakeErr::Full) => Ok(LARGEST_SIZE),
        Err(MakeErr::OutOfMemory) => Err(AllocError),
    }
}

/// The size of a policy of the schema, whose added fields are those of the start. It stays at a
/// million.
pub fn policy_size(alloc: Global, start: &Start<'_>, policy: &TPolicy) -> Result<u64, AllocError>
    requires { map added_of start.now.added.now ≡ (schema_in start.now).added }
    ensures { IfOk result (λ size. size
        ≡ sizes.policy_size (schema_in start.now) (policy_of policy.now)) }
{
    let written = size_upto(alloc, start, start.added.len(), policy)?;
    if start.added.is_empty() {
        // There is nothing to write out.
        return Ok(written);
    }
    let plain = size_upto(alloc, start, 0, policy)?;
    Ok(written.max(plain))
}
