//! Tests of verdicts on formulas that are written out in code.
#![tactic(auto)]

#[cfg(test)]
mod tests;
