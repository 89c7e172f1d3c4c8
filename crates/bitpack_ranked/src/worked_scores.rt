//! Scores worked by hand. The definitions hold of them apart from any code.

ghost use Rattle.bitpack_ranked.specs.WorkedScores.{WorkedScores};

// The statement is in specs/WorkedScores.antt. This function does nothing at run time.
fn worked_scores()
    ensures { WorkedScores }
{}
