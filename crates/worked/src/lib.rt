//! Formulas worked through over Whole: the contract is a theorem about a list of claims.
#![tactic(auto)]

ghost use Rattle.worked.specs.Formulas.{Worked};

/// Every claim of the list holds: records, instructions, numbers, faults, units, and what is shown.
pub fn worked_formulas()
    ensures { Worked }
{}
