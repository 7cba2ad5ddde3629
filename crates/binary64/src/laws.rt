//! What holds of Binary64: the contracts are theorems.
ghost use Rattle.binary64.specs.Laws.{CodesSurviveReading, PilesOverBinary64NeverScreen, ResultsAreRoundedOnce, SubnormalsAreLawful};

/// A lawful code is the same after it was read as a float and written back, minus zero and the subnormal numbers
/// among them; results are rounded once; and Screen's cause never occurs in a pile over Binary64.
pub fn binary64_stands()
    ensures codes { CodesSurviveReading }
    ensures subnormals { SubnormalsAreLawful }
    ensures results { ResultsAreRoundedOnce }
    ensures causes { PilesOverBinary64NeverScreen }
{}
