//! Wide sets worked by hand. The definitions hold of them apart from any code.

ghost use Rattle.bitpack_wide.specs.WorkedFaults.{WorkedChanges, WorkedColumns, WorkedCounts};
ghost use Rattle.bitpack_wide.specs.WorkedSets.{WorkedSpread, WorkedWords};

// The statements are in specs/WorkedSets.antt and specs/WorkedFaults.antt. This function does nothing at run time.
fn worked_sets()
    ensures spread { WorkedSpread }
    ensures words { WorkedWords }
    ensures counts { WorkedCounts }
    ensures columns { WorkedColumns }
    ensures changes { WorkedChanges }
{}
