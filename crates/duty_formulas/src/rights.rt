//! Whether a principal has a right at a command.

ghost use Rattle.type_schema.specs.SchemaViews.{script_of};
ghost use Rattle.duty_meaning.specs.Duties.{has_right};
ghost use Rattle.duty_writer.specs.Terms.{term_data};
ghost use Rattle.duty_builder.specs.Values.{who_data};
ghost use Rattle.duty_writer.specs.Made.{Makes};

use crate::numbered::Numbered;
use crate::policies::policy_in_force;
use duty_builder::{MOST_FUEL, Start, Who, allowed};
use duty_writer::{MakeErr, Term, Writer};
use type_schema::{Right, Target};

/// Writes whether the policy in force after k commands allows who is asked about the right on the
/// record that a term is; where the sign is not, that it does not.
pub(crate) fn right_at(
    w: &mut Writer,
    of: &Numbered<'_>,
    k: usize,
    target: Target,
    right: Right,
    row: &Term<'_>,
    who: &Who<'_>,
    sign: bool,
    above: u32,
) -> Result<u32, MakeErr>
    ensures { Makes w.old result w.new (has_right (script_of of.now.script.now)
        k target right (term_data row.now) (who_data who.now) sign above) }
{
    let Some(policy) = policy_in_force(of.script, k, target, right) else {
        return w.constant(!sign);
    };
    let start = of.start_at(k);
    let upto = start.added.len();
    let made = allowed(w, &start, upto, policy, row, who, sign, above, MOST_FUEL);
    let Start {
        schema: _,
        numbering: _,
        added: _,
    } = start;
    made
}
