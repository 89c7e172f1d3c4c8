//! Blocks worked by hand, which the definitions hold of apart from any kernel.

ghost use Rattle.bitpacking.specs.WorkedBlocks.{
  ThreeBits,
  ThreeBitsSorted,
  FourBits,
  WrappedFives,
  FourLanes,
  AcrossWords,
  EightLanes,
  FallWidth,
  StillWidth,
  StepsWidth,
  NoStepsWidth,
  NoStepsFromLastWidth,
};

// The statements are in specs/WorkedBlocks.antt. This does nothing at run time.
fn layouts()
    ensures three_bits { ThreeBits }
    ensures three_bits_sorted { ThreeBitsSorted }
    ensures four_bits { FourBits }
    ensures wrapped_fives { WrappedFives }
    ensures four_lanes { FourLanes }
    ensures across_words { AcrossWords }
    ensures eight_lanes { EightLanes }
{}

fn widths()
    ensures fall { FallWidth }
    ensures still { StillWidth }
    ensures steps { StepsWidth }
    ensures no_steps { NoStepsWidth }
    ensures no_steps_from_last { NoStepsFromLastWidth }
{}
