//! Tests of scripts on databases, from their texts.
#![tactic(auto)]

#[cfg(test)]
mod tests;
