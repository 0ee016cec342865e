//! Tests of `prove` and `recheck`: the program over objects in memory.
#![tactic(auto)]

#[cfg(test)]
mod files;
#[cfg(test)]
mod tests;
