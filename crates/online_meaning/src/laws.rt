//! Laws over the definitions alone. Each is the contract of a function that does nothing.

ghost use Rattle.online_meaning.specs.Known.{KnowledgeStays, SlowRecordsGo};
ghost use Rattle.online_meaning.specs.Laws.{AddedStay, MarksSuffice, OldFieldsAreRead};
ghost use Rattle.online_meaning.specs.Rollouts.{RolloutsEndRight, SwitchesEvaluateMarked};
ghost use Rattle.online_meaning.specs.Settled.{FindsSettleAll};
ghost use Rattle.online_meaning.specs.Worked.{WorkedRollout};

/// Databases that agree on the cells that something well typed touches, and on the ids of each model
/// on which it has a `Find`, give it the same meaning and touch the same cells.
#[tactic(auto, using(crate::proofs::Settled::settle))]
pub fn finds_settle()
    ensures { FindsSettleAll }
{}

/// What an event does not mark stands: at a record that it leaves and does not mark, initialisers
/// give the same before and after it, and read the same cells deeply.
pub fn marks_suffice()
    ensures { MarksSuffice }
{}

/// What is known of a slow record, which cells it reads deeply and what the initialisers give, stays
/// so at each record that an event leaves and does not mark.
#[tactic(auto, using(crate::proofs::Knowing::knowledge_stays))]
pub fn knowledge_stays()
    ensures { KnowledgeStays }
{}

/// The slow records after an event: a record made stands behind the others of its model, and one that
/// is erased is left out.
#[tactic(auto, using(crate::proofs::SlowAfter::slow_records_go))]
pub fn slow_records_go()
    ensures { SlowRecordsGo }
{}

/// What an initialiser gave a record is what the database after the script holds there, where the
/// last schema has the field.
#[tactic(auto, using(crate::proofs::Lasting::added_stay))]
pub fn added_stay()
    ensures { AddedStay }
{}

/// An initialiser that uses fields of the schema before the script alone gives on the database before
/// it what it gives when its command comes, and what it touches there is what it reads deeply.
pub fn old_fields_are_read()
    ensures { OldFieldsAreRead }
{}

/// After every list of events, what was kept at a record that is not marked is what the initialiser
/// gives there, and what a switch made is the script's meaning on the database as it then stood.
#[tactic(auto, using(crate::proofs::Ends::end_right))]
pub fn rollouts_end_right()
    ensures { RolloutsEndRight }
{}

/// A switch evaluates an initialiser once for each marked record and each field that the script
/// adds to its model.
#[tactic(auto, using(crate::proofs::Counting::switches_evaluate_marked))]
pub fn switches_evaluate_marked()
    ensures { SwitchesEvaluateMarked }
{}

/// A worked rollout, which shows what is marked after each event and what the switch makes.
#[tactic(auto, using(crate::proofs::WorkedRollouts::worked))]
pub fn worked_rollout()
    ensures { WorkedRollout }
{}
