//! What holds of Whole: the contracts are theorems.
ghost use Rattle.whole.specs.Laws.{DivDropsTowardZero, PilesOverWholeNeverScreen, QuotientsHaveDivisors, ResultsAreExact};

/// Results are exact, division drops the fraction toward zero, and Screen's cause never occurs in a pile over Whole.
pub fn whole_stands()
    ensures exact { ResultsAreExact }
    ensures divisors { QuotientsHaveDivisors }
    ensures division { DivDropsTowardZero }
    ensures causes { PilesOverWholeNeverScreen }
{}
