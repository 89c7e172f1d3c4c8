//! Why a line was not parsed.

ghost use Rattle.std.specs.Prelude.{◌≡◌};
ghost use Rattle.bitpack.specs.declared.line.error.ParseError.TheVariants.{Memory};

use std::alloc::{AllocError, AllocFailed};

/// Why parsing failed.
#[derive(Clone, Copy)]
pub(crate) enum ParseError {
    /// The string is not in the grammar.
    Spelling,
    /// The allocator refused memory.
    Memory,
}

impl From<AllocError> for ParseError {
    ghost from_gives = { λ _ e. e ≡ Memory };

    fn from(_error: AllocError) -> ParseError {
        ParseError::Memory
    }
}

impl<T: Drop> From<AllocFailed<T>> for ParseError {
    ghost from_gives = { λ _ e. e ≡ Memory };

    fn from(_error: AllocFailed<T>) -> ParseError {
        ParseError::Memory
    }
}
