//! Sets worked by hand. The definitions hold of them apart from any code.

ghost use Rattle.bitpack_sets.specs.WorkedFaults.{WorkedChanges, WorkedFaults, WorkedRuns};
ghost use Rattle.bitpack_sets.specs.WorkedSets.{WorkedFull, WorkedLong, WorkedShort};

// The statements are in specs/WorkedSets.antt and specs/WorkedFaults.antt. This function does nothing at run time.
fn worked_sets()
    ensures short { WorkedShort }
    ensures long { WorkedLong }
    ensures full { WorkedFull }
    ensures faults { WorkedFaults }
    ensures changes { WorkedChanges }
    ensures runs { WorkedRuns }
{}
