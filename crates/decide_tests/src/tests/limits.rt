//! Formulas with more terms than a formula is written out over.

use crate::tests::signatures::{related_back, related_within};
use decide_trial::Forms;
use decide_verdict::Verdict;
use form_formula::Signature;
use std::alloc::{AllocError, Global};
use std::test::Fail;

/// There are so many elements of sort 0, and for each two of them one of a sort that is related to
/// the first.
fn one_for_each_two(
    alloc: Global,
    signature: &Signature,
    elements: u32,
    sort: u32,
) -> Result<Verdict, AllocError> {
    let mut forms = Forms::new(alloc)?;
    let x = forms.bound(0, elements)?;
    let z = forms.bound(sort, elements.saturating_add(2))?;
    let holds = forms.has(0, z, x)?;
    let some = forms.exists(sort, holds)?;
    let inner = forms.forall(0, some)?;
    let mut whole = forms.forall(0, inner)?;
    for _ in 0..elements {
        whole = forms.exists(0, whole)?;
    }
    forms.verdict_on(alloc, signature, whole)
}

/// Whether it is not known, with this cycle, and nothing was tried.
fn is_untried(verdict: &Verdict, cycle: &[u32]) -> bool {
    match verdict {
        Verdict::Unknown(own, None) => own.as_slice() == cycle,
        Verdict::Unknown(_, Some(_)) | Verdict::Safe | Verdict::Found(..) | Verdict::TooLarge(..) =>
            false,
    }
}

/// Whether it is too large, with these counts.
fn has_counts(verdict: &Verdict, terms: u64, nodes: u64) -> bool {
    match verdict {
        Verdict::TooLarge(own_terms, own_nodes) => *own_terms == terms && *own_nodes == nodes,
        Verdict::Safe | Verdict::Found(..) | Verdict::Unknown(..) => false,
    }
}

// With the constant of the sort these are four terms, sixteen more in the first round, and 404 after
// the second, of which 400 would be tried.
#[test]
fn unknown_without_a_structure(rt: HostRuntime) -> Result<(), Fail> {
    let signature = related_within(rt.alloc())?;
    let many = one_for_each_two(rt.alloc(), &signature, 3, 0)?;
    assert!(rt; is_untried(&many, &[0, 0]));
    Ok(())
}

// 21 terms of sort 0, one for each two of them and the constant of sort 1; 20 nodes above 1 + 21 *
// (1 + 21 * 4).
#[test]
fn too_many_terms(rt: HostRuntime) -> Result<(), Fail> {
    let signature = related_back(rt.alloc())?;
    let many = one_for_each_two(rt.alloc(), &signature, 20, 1)?;
    assert!(rt; has_counts(&many, 463, 1806));
    Ok(())
}
