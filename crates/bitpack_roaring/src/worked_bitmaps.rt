//! Bitmaps worked by hand. The definitions hold of them apart from any code.

ghost use Rattle.bitpack_roaring.specs.WorkedBitmaps.{WorkedBitmaps, WorkedBits};
ghost use Rattle.bitpack_roaring.specs.WorkedBytes.{WorkedBytes};
ghost use Rattle.bitpack_roaring.specs.WorkedFaults.{WorkedCounts, WorkedFaults};

// The statements are in specs/WorkedBitmaps.antt, specs/WorkedFaults.antt and specs/WorkedBytes.antt. This function does nothing at run time.
fn worked_bitmaps()
    ensures bitmaps { WorkedBitmaps }
    ensures bits { WorkedBits }
    ensures faults { WorkedFaults }
    ensures counts { WorkedCounts }
    ensures bytes { WorkedBytes }
{}
