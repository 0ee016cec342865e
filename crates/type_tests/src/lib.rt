//! Tests of the types of specifications, commands and scripts, from texts and from trees that no
//! text spells.
#![tactic(auto)]

#[cfg(test)]
mod tests;
