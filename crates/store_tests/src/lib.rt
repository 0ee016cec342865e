//! Tests of what stands between the program and its store.
#![tactic(auto)]

#[cfg(test)]
mod tests;
