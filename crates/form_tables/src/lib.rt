//! Tables of what ground terms have, and the structures that they stand for.
//!
//! - `laws`: what holds of the tables of any formula and any list of terms.
#![tactic(auto)]

mod laws;

pub use laws::{
    assignments_are_complete, atoms_are_facts, clauses_are_consistency, models_are_assignments,
    models_are_complete, structure_has_table, table_has_structure, tables_are_complete,
    vocabularies_exist,
};
