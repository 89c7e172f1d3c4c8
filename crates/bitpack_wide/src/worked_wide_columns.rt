//! Wide columns worked by hand. The definitions hold of them apart from any code.

ghost use Rattle.bitpack_wide.specs.WorkedWideColumns.{WorkedHigh, WorkedLow};
ghost use Rattle.bitpack_wide.specs.WorkedWideFaults.{WorkedDirectories, WorkedParts};

// The statements are in specs/WorkedWideColumns.antt and specs/WorkedWideFaults.antt. This function does nothing at run time.
fn worked_wide_columns()
    ensures low { WorkedLow }
    ensures high { WorkedHigh }
    ensures directories { WorkedDirectories }
    ensures parts { WorkedParts }
{}
