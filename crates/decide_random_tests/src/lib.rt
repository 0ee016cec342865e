//! Random formulas, decided, beside a search of all small structures.
#![tactic(auto)]

#[cfg(test)]
mod tests;
