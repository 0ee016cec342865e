//! Specifications: from trees to schemas, or the first fault.
//!
//! | module | holds |
//! |---|---|
//! | `names` | names that are added |
//! | `grown` | copies of schemas, and schemas with one more static or model |
//! | `stage` | `Stage`, how far models are looked at |
//! | `models` | models that are added to a schema |
//! | `specs` | specifications |
//! | `laws` | laws over the definitions |
//! | `limits` | how large policies and initialisers are |
#![tactic(auto)]

mod grown;
mod laws;
pub mod limits;
mod models;
mod names;
mod specs;
mod stage;

pub use grown::{copied, push_model, push_static};
pub use laws::worked_specs;
pub use models::{created_model, policy_over, typed_field, with_models};
pub use names::{new_model, new_static, one_more};
pub use specs::{next_static, resolved_spec};
pub use stage::Stage;
