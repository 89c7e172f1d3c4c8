//! Encoded lists worked by hand. The definitions hold of them apart from any code.

ghost use Rattle.bitpack_lists.specs.WorkedEncodings.{WorkedEncodings1, WorkedEncodings2, WorkedFaults1, WorkedFaults2};

// The statements are in specs/WorkedEncodings.antt. These functions do nothing at run time.
fn encodings_of_version_1()
    ensures encodings { WorkedEncodings1 }
    ensures faults { WorkedFaults1 }
{}

fn encodings_of_version_2()
    ensures encodings { WorkedEncodings2 }
    ensures faults { WorkedFaults2 }
{}
