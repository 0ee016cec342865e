//! Sets of principals.

use data_meaning::Principal;

/// A set of principals. Where `everyone` is true it holds all but those of `but`, and `some` is
/// empty; else it holds those of `some`, and `but` is empty. Both lists rise, static principals
/// before records, by their numbers, and hold each principal once.
#[derive(Drop)]
pub struct PrincipalSet {
    pub everyone: bool,
    pub some: Vec<Principal>,
    pub but: Vec<Principal>,
}
