//! Sessions.

use data_meaning::Principal;
use text_ast::Name;

/// A session: its name, its principal, if it still has one, and the version of what is stored that
/// it was opened or last renewed at.
#[derive(Drop)]
pub struct Session {
    pub name: Name,
    pub who: Option<Principal>,
    pub version: u64,
}
