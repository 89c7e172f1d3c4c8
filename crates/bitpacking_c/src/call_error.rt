//! Results as numbers: a count, or why a call failed.

ghost use Rattle.std.specs.Prelude.{◌≡◌, ◌^◌, ◌<◌, IfOk};
ghost use Rattle.bitpacking_c.specs.Answers.{number_of};

/// Why a call failed. Nothing was written then.
#[derive(Clone, Copy, PartialEq, Eq, Debug)]
pub enum CallError {
    /// The values are not a block, or there is no room for one. For a chain: they are not as many as the widths have blocks.
    BadLength,
    /// A width is above 32.
    BadWidth,
    /// There are too few bytes, to write or to read.
    Short,
    /// A code of the block does not fit the width.
    Unfit,
}

/// The number for C.
#[inline(always)]
pub(crate) fn number(answer: Result<usize, CallError>) -> isize
    requires { IfOk answer (λ count. count < 2 ^ 63) }
    ensures { result ≡ number_of answer }
{
    match answer {
        Ok(count) => count as isize,
        Err(CallError::BadLength) => -1,
        Err(CallError::BadWidth) => -2,
        Err(CallError::Short) => -3,
        Err(CallError::Unfit) => -4,
    }
}
