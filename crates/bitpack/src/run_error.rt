//! Why a run stops early, and how the program ends.

ghost use Rattle.std.specs.Prelude.{◌≡◌};
ghost use Rattle.bitpack.specs.Ending.{ending_status, ending_message};

/// Why a run stopped before the end of its input.
#[derive(Clone, Copy, PartialEq, Eq, Debug)]
pub enum RunError {
    /// A read failed, or the reader did not end.
    Read,
    /// A write failed or took nothing, or the last flush failed.
    Write,
    /// The allocator refused memory for a line or its answer.
    Memory,
}

/// The exit status of the program and its message on standard error, which is empty after a run to the end.
pub fn ending(outcome: &Result<(), RunError>) -> (u8, &'static str)
    // claim: lines/7 the status and the message of each error
    ensures status { result.0 ≡ ending_status outcome.now }
    ensures message { result.1.now ≡ ending_message outcome.now }
{
    match outcome {
        Ok(()) => (0, ""),
        Err(RunError::Read) => (1, "bitpack: read failed"),
        Err(RunError::Write) => (1, "bitpack: write failed"),
        Err(RunError::Memory) => (1, "bitpack: out of memory"),
    }
}
