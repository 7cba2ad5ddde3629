//! Formulas in code: the checks of a listing, and its translation.
#![tactic(auto)]

pub mod check;
pub mod load;
pub mod refusal;
pub mod scope;
pub mod translate;
