//! Tests of texts of the whole language, read and printed again.
#![tactic(auto)]

#[cfg(test)]
mod tests;
