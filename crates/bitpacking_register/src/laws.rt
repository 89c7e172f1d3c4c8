//! What `delta` and `integrate` are together: the contract of a function that does nothing.

ghost use Rattle.bitpacking_register.specs.Laws.{SumsUndoDifferences, DifferencesUndoSums};

/// `integrate(previous, delta(current, previous))` is `current`, and the other way round.
///
/// Stated over the lists of words, so for every register at once.
// claim: registers/2 `delta` and `integrate` undo one another
pub fn integrate_delta()
    ensures sums_of_differences { SumsUndoDifferences }
    ensures differences_of_sums { DifferencesUndoSums }
{}
