//! Tests of databases, their structures and the texts that tell them.
#![tactic(auto)]

#[cfg(test)]
mod tests;
