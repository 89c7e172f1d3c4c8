//! Columns worked by hand. The definitions hold of them apart from any code.

ghost use Rattle.bitpack_columns.specs.WorkedColumns.{WorkedLong, WorkedShort};
ghost use Rattle.bitpack_columns.specs.WorkedFaults.{WorkedFaults, WorkedReads};

// The statements are in specs/WorkedColumns.antt and specs/WorkedFaults.antt. This function does nothing at run time.
fn worked_columns()
    ensures short { WorkedShort }
    ensures long { WorkedLong }
    ensures faults { WorkedFaults }
    ensures reads { WorkedReads }
{}
