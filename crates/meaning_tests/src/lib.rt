//! Tests of what specifications and scripts mean, from their texts.
#![tactic(auto)]

#[cfg(test)]
mod tests;
