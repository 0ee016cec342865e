//! Tests of the decision procedures under the clause solver: which literals a conflict is made of,
//! which no clause says.
#![tactic(auto)]

#[cfg(test)]
mod tests;
