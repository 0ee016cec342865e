//! Limits of the files, and of generated scripts.

ghost use Rattle.std.specs.Prelude.{◌≡◌};
ghost use Rattle.app_files.specs.declared.limits.TheConstants as limit;

/// How many bytes a specification or a script has at most.
pub const MOST_FILE_BYTES: usize = 1_048_576;

/// How many commands a generated script has at most.
pub const MOST_GENERATED: u32 = 60;

/// The limits, as numbers.
pub fn limits_are()
    ensures bytes { limit.MOST_FILE_BYTES ≡ 1048576 }
    ensures generated { limit.MOST_GENERATED ≡ 60 }
{}
