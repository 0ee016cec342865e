//! Tests of the words that arguments are.

mod arguments;
