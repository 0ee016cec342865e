//! The text that is printed.

ghost use Rattle.std.specs.Prelude.{◌≡◌, ◌==◌, ◌++◌, IfOk, OnOk};
ghost use Rattle.std.specs.List.{flat_map, position};
ghost use Rattle.app_impact.specs.Answer as spec_answer;
ghost use Rattle.app_impact.specs.Report as spec;
ghost use Rattle.type_schema.specs.SchemaViews.{script_of};

use crate::answer::{Impact, ImpactAnswer};
use app_files::{join_pieces, print_refusal};
use check_report::{Witness, print_cycle, print_duty, print_witness};
use impact_effects::{Effect, Shown};
use std::alloc::{AllocError, Global};
use text_print::Printer;
use type_schema::{ModelNo, TScript};

/// Where the first line of the text ends.
fn line_end(text: &[u8]) -> Option<usize>
    ensures { result ≡ position (λ b. b == 10) text.now }
{
    text.iter().position(|byte| *byte == b'\n')
}

/// What stands behind the first line of the text.
fn behind_first_line(text: &[u8]) -> &[u8]
    ensures { result.now ≡ spec.behind_first_line text.now }
{
    match line_end(text) {
        Some(end) => &text[end + 1..],
        None => b"",
    }
}

/// What is printed of an example: the lines of the witness but its first.
fn example_text(alloc: Global, w: &Witness, t: &TScript) -> Result<Vec<u8>, AllocError>
    ensures { IfOk result (λ text. text.items ≡ spec.example_text (script_of t.now) w.now) }
{
    let witness = print_witness(alloc, w, t)?;
    join_pieces(
        alloc,
        &[b" example\n", behind_first_line(witness.as_slice())],
    )
}

/// What is printed of a formula that is not decided.
fn undecided_text(alloc: Global, cycle: &[ModelNo], t: &TScript) -> Result<Vec<u8>, AllocError>
    ensures { IfOk result (λ text. text.items ≡ spec.cyclic_text (script_of t.now) cycle.now) }
{
    let name = print_cycle(alloc, cycle, t)?;
    join_pieces(alloc, &[b" undecided cycle ", name.as_slice(), b"\n"])
}

/// What is printed of a formula that is too large.
fn too_large_text(alloc: Global, terms: u64, nodes: u64) -> Result<Vec<u8>, AllocError>
    ensures { IfOk result (λ text. text.items ≡ spec.large_text terms nodes) }
{
    let terms = terms.to_string(alloc)?;
    let nodes = nodes.to_string(alloc)?;
    join_pieces(
        alloc,
        &[
            b" too large terms ",
            terms.as_bytes(),
            b" nodes ",
            nodes.as_bytes(),
            b"\n",
        ],
    )
}

/// What is printed of a weakening behind its name.
fn shown_text(alloc: Global, shown: &Shown, t: &TScript) -> Result<Vec<u8>, AllocError>
    ensures { IfOk result (λ text. text.items ≡ spec.shown_text (script_of t.now) shown.now) }
{
    match shown {
        Shown::Example(w) => example_text(alloc, w, t),
        Shown::Nothing => join_pieces(alloc, &[b" nothing\n"]),
        Shown::Undecided { cycle } => undecided_text(alloc, cycle.as_slice(), t),
        Shown::TooLarge { terms, nodes } => too_large_text(alloc, *terms, *nodes),
    }
}

/// Writes the lines on a weakening.
fn write_effect(
    out: &mut Printer,
    alloc: Global,
    t: &TScript,
    effect: &Effect,
) -> Result<(), AllocError>
    ensures { OnOk result (out.new ≡ out.old
        ++ spec.effect_text (script_of t.now) effect.now) }
{
    let name = print_duty(alloc, effect.duty, t)?;
    let shown = shown_text(alloc, &effect.shown, t)?;
    let lines = join_pieces(alloc, &[b"impact ", name.as_slice(), shown.as_slice()])?;
    out.put(lines.as_slice())
}

/// Writes the lines on each weakening.
fn write_effects(
    out: &mut Printer,
    alloc: Global,
    t: &TScript,
    effects: &[Effect],
) -> Result<(), AllocError>
    ensures { OnOk result (out.new ≡ out.old
        ++ flat_map (λ effect. spec.effect_text (script_of t.now) effect) effects.now) }
{
    for effect in effects {
        write_effect(out, alloc, t, effect)?;
    }
    Ok(())
}

/// The line on how many effects there are.
fn impacts_text(alloc: Global, count: usize) -> Result<Vec<u8>, AllocError>
    ensures { IfOk result (λ text. text.items ≡ spec.impacts_text count) }
{
    let number = count.to_string(alloc)?;
    join_pieces(alloc, &[b"impacts ", number.as_bytes(), b"\n"])
}

/// The report on what the weakenings of a script newly allow.
fn found_text(alloc: Global, found: &Impact) -> Result<Vec<u8>, AllocError>
    ensures { IfOk result (λ text. text.items
        ≡ spec.impact_text (script_of found.now.script) found.now.effects) }
{
    let effects = found.effects.as_slice();
    let mut out = Printer::new(alloc);
    write_effects(&mut out, alloc, &found.script, effects)?;
    let last = impacts_text(alloc, effects.len())?;
    out.put(last.as_slice())?;
    Ok(out.into_bytes())
}

/// The report of the answer.
pub fn impact_report_of(alloc: Global, answer: &ImpactAnswer) -> Result<Vec<u8>, AllocError>
    ensures { IfOk result (λ text. text.items ≡ spec_answer.text_of answer.now) }
{
    match answer {
        ImpactAnswer::Found(found) => found_text(alloc, found),
        ImpactAnswer::Refused(refusal) => print_refusal(alloc, refusal),
    }
}
