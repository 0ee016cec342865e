//! Verdicts, by their names.

use decide_verdict::Verdict;

/// Which verdict it is.
#[derive(Clone, Copy, Debug, PartialEq, Eq)]
pub(crate) enum Kind {
    Safe,
    Found,
    Unknown,
    TooLarge,
}

pub(crate) fn kind_of(verdict: &Verdict) -> Kind {
    match verdict {
        Verdict::Safe => Kind::Safe,
        Verdict::Found(..) => Kind::Found,
        Verdict::Unknown(..) => Kind::Unknown,
        Verdict::TooLarge(..) => Kind::TooLarge,
    }
}
