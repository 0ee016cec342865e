//! Obligations of scripts as formulas over structures: definitions and laws.
//!
//! | module | holds |
//! |---|---|
//! | `duty` | `Duty`, an obligation |
//! | `laws` | laws over the definitions |
//! | `limits` | how far sizes are counted |
//!
//! | definitions | say |
//! |---|---|
//! | `specs/Structures.antt` | the signature of a schema, and the structure of a database over it |
//! | `specs/Cases.antt` | the value of an expression as a tree of its cases |
//! | `specs/Formulas.antt` | the formula of an expression, a set and a policy; added fields |
//! | `specs/Reach.antt` | the formula of a use of a field in an initialiser |
//! | `specs/Duties.antt` | the obligations of a script, and the formula of each |
//! | `specs/Sizes.antt` | the sizes of policies and initialisers |
//! | `specs/Gains.antt` | where the formula of an obligation against gains is true |
//! | `specs/Reads.antt`, `specs/Flows.antt` | what a use reads, and where the formula of an obligation against flow leaks is true |
//! | `specs/Listed.antt` | what the obligations in the list are |
//! | `specs/Over.antt` | that formulas are closed and over the signature, and that there is one |
//! | `specs/Shapes.antt` | that structures of start databases are structures over the signature |
//! | `specs/Failing.antt` | scripts none of whose obligations fails |
//! | `specs/Truths.antt` | the formulas of conditions and policies tell what they mean |
//! | `specs/Worked.antt` | worked formulas and sizes |
#![tactic(auto)]

mod duty;
mod laws;
pub mod limits;

pub use duty::Duty;
pub use laws::{
    expanded_is_counted, false_formulas_secure, flow_formulas_are_true, formulas_are_over,
    formulas_are_true, gain_formulas_are_true, obligations_are_listed, signatures_fit,
    structures_are_over, unsatisfied_secure, uses_read_what_is_touched, worked_formulas,
};
