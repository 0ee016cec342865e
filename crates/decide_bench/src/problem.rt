//! Formulas and their signatures.

use decide_trial::Forms;
use form_formula::Signature;
use std::alloc::AllocError;

/// A formula and its signature.
#[derive(Drop)]
pub struct Problem {
    pub signature: Signature,
    pub forms: Forms,
    pub formula: u32,
}

/// That there are so many elements of a sort for which a formula is true.
pub fn exist(forms: &mut Forms, sort: u32, count: u32, formula: u32) -> Result<u32, AllocError> {
    let mut whole = formula;
    for _ in 0..count {
        whole = forms.exists(sort, whole)?;
    }
    Ok(whole)
}
