//! What no clause says: that calls succeed, and the real outside.

mod in_memory;
mod outside;
