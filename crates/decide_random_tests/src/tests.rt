//! Verdicts on formulas that look random, beside a search of all structures of at most three
//! elements.
//!
//! - `random`: numbers that look random.
//! - `signature`: the signature of all formulas and structures here.
//! - `writer`: formulas.
//! - `structures`: all small structures.

mod random;
mod signature;
mod structures;
mod writer;

use self::signature::signature;
use self::structures::all_structures;
use self::writer::Writer;
use decide_trial::Forms;
use decide_verdict::Verdict;
use form_formula::Structure;
use std::alloc::{AllocError, Global};
use std::test::Fail;

/// How many formulas are decided.
const FORMULAS: u32 = 180;

/// Whether a formula is true on one of the structures.
fn is_true_on_some(
    alloc: Global,
    forms: &Forms,
    id: u32,
    structures: &[Structure],
) -> Result<bool, AllocError> {
    for structure in structures {
        if forms.is_true_on(alloc, structure, id)? {
            return Ok(true);
        }
    }
    Ok(false)
}

/// How many verdicts there were of each kind.
#[derive(Clone, Copy, Debug, Default)]
struct Counts {
    safe: u32,
    found: u32,
    unknown: u32,
}

/// Decides one formula, and counts the verdict. Some is what is wrong with it.
fn judge(
    alloc: Global,
    forms: &Forms,
    id: u32,
    verdict: &Verdict,
    small: bool,
    counts: &mut Counts,
) -> Result<Option<&'static str>, AllocError> {
    match verdict {
        Verdict::Safe => {
            counts.safe = counts.safe.wrapping_add(1);
            Ok(small.then_some("safe, and true on a structure"))
        }
        Verdict::Found(structure, _) => {
            counts.found = counts.found.wrapping_add(1);
            let holds = forms.is_true_on(alloc, structure, id)?;
            Ok((!holds).then_some("false on the structure that was found"))
        }
        Verdict::Unknown(..) => {
            counts.unknown = counts.unknown.wrapping_add(1);
            Ok(None)
        }
        Verdict::TooLarge(..) => Ok(Some("too large")),
    }
}

#[test]
fn verdicts_are_those_of_a_search(rt: HostRuntime) -> Result<(), Fail> {
    let alloc = rt.alloc();
    let signature = signature(alloc)?;
    let structures = all_structures(alloc)?;
    let mut counts = Counts::default();
    for round in 0..FORMULAS {
        let mut writer = Writer::new(alloc, u64::from(round))?;
        let id = writer.whole()?;
        let small = is_true_on_some(alloc, &writer.forms, id, structures.as_slice())?;
        let verdict = writer.forms.verdict_on(alloc, &signature, id)?;
        let wrong = judge(alloc, &writer.forms, id, &verdict, small, &mut counts)?;
        assert!(rt; wrong.is_none(), "in round {round}: {wrong:?}");
    }
    assert!(rt; counts.found > 60 && counts.safe > 60, "{counts:?}");
    Ok(())
}
