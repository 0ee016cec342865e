//! Laws over the definitions alone. Each is the contract of a function that does nothing.

ghost use Rattle.check_scripts.specs.Agree.{OutcomesAgree};
ghost use Rattle.check_scripts.specs.Picked.{PickedWitnessesFail};
ghost use Rattle.check_scripts.specs.Sound.{AcceptedAreSecure, ClearedDoNotFail};
ghost use Rattle.check_scripts.specs.Sound.{DecidableAreSettled, LeaksAreReal};

/// Where a structure satisfies the formula of an obligation of a script, with elements picked for
/// the quantifiers that it begins with, the obligation fails by the witness of these elements.
#[tactic(auto, using(crate::proofs::Picked::picked))]
pub fn picked_witnesses_fail()
    ensures { PickedWitnessesFail }
{}

/// An obligation that is cleared fails by no witness.
#[tactic(auto, using(crate::proofs::Sound::cleared_do_not_fail))]
pub fn cleared_do_not_fail()
    ensures { ClearedDoNotFail }
{}

/// An accepted script is secure, at each of its commands and as a whole: nobody gains a right that
/// no command weakens, on any database of any size.
pub fn accepted_are_secure()
    ensures { AcceptedAreSecure }
{}

/// A script that leaks is not secure at each of its commands.
pub fn leaks_are_real()
    ensures { LeaksAreReal }
{}

/// A script whose obligations are stratified and within the limits is accepted or leaks.
pub fn decidable_are_settled()
    ensures { DecidableAreSettled }
{}

/// All outcomes of a script say the same of how it stands: it is accepted, or its first obligation
/// that is not cleared fails or is not decided, or that one is too large.
pub fn outcomes_agree()
    ensures { OutcomesAgree }
{}
