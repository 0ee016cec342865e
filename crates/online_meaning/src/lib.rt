//! Online migrations, said directly: what initialisers read deeply, which records a change marks,
//! and that the switch makes what the script means, after every list of events.
//!
//! | module | holds |
//! |---|---|
//! | `laws` | laws over the definitions |
//!
//! | definitions | say |
//! |---|---|
//! | `specs/Finds.antt` | the models on which an initialiser has a `Find` |
//! | `specs/Settled.antt` | the law of touched cells and found models |
//! | `specs/Deep.antt` | what an initialiser reads deeply, also through other added fields |
//! | `specs/Marks.antt` | slow records, and queues of marked ones |
//! | `specs/Events.antt` | events, what each changes and marks, and when it is refused |
//! | `specs/Rollouts.antt` | lists of events, the switch, and the law of online migrations |
//! | `specs/Known.antt` | what may be known of slow records while events come; the slow records after one |
//! | `specs/Laws.antt` | the law of marks; that what an initialiser gave stays |
//! | `specs/Worked.antt` | a worked rollout |
#![tactic(auto)]

mod laws;

pub use laws::{
    added_stay, finds_settle, knowledge_stays, marks_suffice, old_fields_are_read,
    rollouts_end_right, slow_records_go, switches_evaluate_marked, worked_rollout,
};
