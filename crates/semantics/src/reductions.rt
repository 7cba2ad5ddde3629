//! What is proved of the terms that a run shows: they are the reduction sequence of its term, and well formed.
ghost use Rattle.semantics.specs.Reduction.{AtMostOneReduction, EveryStopShowsAReduct, ShowsExactlyTheReductions, ShowsTheReductions};
ghost use Rattle.semantics.specs.WellFormed.{EveryStopShowsAWellFormedTerm, ShownTermsAreWellFormed};

/// A term reduces to at most one, and a value to none.
pub fn at_most_one_reduction()
    ensures { AtMostOneReduction }
{}

/// A run begins by showing its term with the inputs filled in. A step of OP, EQ, LET, APPLY or IF reduces the shown term
/// once, and any other leaves it as it is. At the end the shown term is the value, and where a step faults it is stuck.
pub fn shows_the_reductions()
    ensures { ShowsTheReductions }
{}

/// The shown terms of a run are exactly the reduction sequence of its term with the inputs filled in.
pub fn shows_exactly_the_reductions()
    ensures { ShowsExactlyTheReductions }
{}

/// Wherever a run stops, it shows the term that one contraction for each of its steps that contract leads to.
pub fn every_stop_shows_a_reduct()
    ensures { EveryStopShowsAReduct }
{}

/// A run of a term in scope, with lawful numbers and lawful inputs, shows after any number of steps a term in scope with
/// no inputs, and with lawful numbers.
pub fn shown_terms_are_well_formed()
    ensures { ShownTermsAreWellFormed }
{}

/// So it does wherever it stops: running, ended, faulted or halted.
pub fn every_stop_shows_a_well_formed_term()
    ensures { EveryStopShowsAWellFormedTerm }
{}
