//! What a formula means: terms and their listings, evaluation rules, translation, machine and showing, and the theorems
//! that tie them. A theorem stands on the contract of a function that does nothing else.
#![tactic(auto)]

pub mod code;
pub mod evaluation;
pub mod instruction;
pub mod kind;
pub mod label;
pub mod layout;
pub mod listing;
pub mod reductions;
pub mod run;
pub mod showing;
pub mod sizes;
pub mod stored;
