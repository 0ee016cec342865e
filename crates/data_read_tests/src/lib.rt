//! Tests of databases that are read from their texts.
#![tactic(auto)]

#[cfg(test)]
mod tests;
