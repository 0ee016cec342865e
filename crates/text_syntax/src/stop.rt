//! Why a form is not read.

ghost use Rattle.std.specs.Prelude.{◌≡◌};
ghost use Rattle.text_syntax.specs.declared.stop.Stop.TheVariants.{OutOfMemory};

use std::alloc::AllocError;

/// Why a form is not read. The place is where the cursor stands then; after `OutOfMemory` it may
/// stand anywhere.
#[derive(Clone, Copy, Debug, PartialEq, Eq)]
pub enum Stop {
    /// The next token does not go on with the form, or there is none.
    NotGrammar,
    /// An expression or a set begins with the next token, below 64 others that hold it.
    TooDeep,
    /// The next token is one of an outermost expression or set that has 1,024 before it.
    TooManyTokens,
    /// The next token begins a static principal after 64 others.
    TooManyStatics,
    /// The next token begins a model after 64 others.
    TooManyModels,
    /// The next token begins a field of a model after 64 others.
    TooManyFields,
    /// The next token begins a command after 256 others.
    TooManyCommands,
    /// There was no memory for the tree.
    OutOfMemory,
}

impl From<AllocError> for Stop {
    ghost from_gives = { λ _ stop. stop ≡ OutOfMemory };

    fn from(_e: AllocError) -> Stop {
        Stop::OutOfMemory
    }
}
