//! Worked commands, each with what it answers.

mod impacts;
mod linked;
