//! Tests of the check of certificates: whole ones and wrong ones, and at which line these are
//! refused.
#![tactic(auto)]

#[cfg(test)]
mod crowded;
#[cfg(test)]
mod judge;
#[cfg(test)]
mod many;
#[cfg(test)]
mod problems;
#[cfg(test)]
mod tests;
