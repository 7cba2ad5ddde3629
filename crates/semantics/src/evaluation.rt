//! What is proved of the evaluation rules.
ghost use Rattle.semantics.specs.Evaluation.{AtMostOneOutcome};
ghost use Rattle.semantics.specs.Substitution.{SameWhenSubstituted};

/// The rules give a term at most one outcome, and one count of units.
pub fn at_most_one_outcome()
    ensures { AtMostOneOutcome }
{}

/// Terms that are the same once shown values are filled in for their variables have the same outcomes, in as many units.
pub fn same_when_substituted()
    ensures { SameWhenSubstituted }
{}
