//! Tests of app_main.
#![tactic(auto)]

#[cfg(test)]
mod tests;
