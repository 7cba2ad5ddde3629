//! What is proved of code.
ghost use Rattle.semantics.specs.ReadingBack.{AtMostOneTermHasACode, ReadsBack};

/// Reading the translation of a term gives the term back.
pub fn reads_back()
    ensures { ReadsBack }
{}

/// Code is the translation of at most one term: the one that it reads as.
pub fn at_most_one_term_has_a_code()
    ensures { AtMostOneTermHasACode }
{}
