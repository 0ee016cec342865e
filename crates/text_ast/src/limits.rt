//! The limits of specifications and scripts.

ghost use Rattle.std.specs.Prelude.{◌≡◌};
ghost use Rattle.text_ast.specs.Limits.{most_levels, most_tokens, most_statics, most_models, most_fields, most_commands};

/// How deep expressions and sets nest at most.
pub const MOST_LEVELS: u32 = 64;

/// How many tokens an expression or a set has at most that no other holds.
pub const MOST_TOKENS: usize = 1024;

/// How many static principals there are at most.
pub const MOST_STATICS: usize = 64;

/// How many models there are at most.
pub const MOST_MODELS: usize = 64;

/// How many fields a model has at most.
pub const MOST_FIELDS: usize = 64;

/// How many commands a script has at most.
pub const MOST_COMMANDS: usize = 256;

/// The limits, as numbers.
pub fn limits_are()
    ensures levels { most_levels ≡ 64 }
    ensures tokens { most_tokens ≡ 1024 }
    ensures statics { most_statics ≡ 64 }
    ensures models { most_models ≡ 64 }
    ensures fields { most_fields ≡ 64 }
    ensures commands { most_commands ≡ 256 }
{}
