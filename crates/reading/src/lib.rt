//! Reading code back: forward over a stack, into an arena, and out as a listing.
#![tactic(auto)]

pub mod reader;
pub mod write;

/// The most records that are written for a caller.
pub const MOST_WRITTEN: usize = 4_096;

/// The most trees that wait to be written: one for each record, and the children of one tree.
pub const MOST_WORK: usize = MOST_WRITTEN + 3;
