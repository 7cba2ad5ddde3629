//! The reader: its scratch, and the trees that reading makes.
pub mod give_back;
pub mod new;
pub mod read;
pub mod step;

use crate::{MOST_WORK, MOST_WRITTEN};
use bounded::BoundedVec;
use domain::Op;
use semantics::layout::{MOST_INSTRUCTIONS, Node};
use std::error::Error;
use std::fmt;

/// A node of the arena. Children are the places of older nodes in the arena, since nothing allocates while a code is read;
/// a variable's index is from 1.
#[derive(Clone, Copy, PartialEq, Eq)]
pub enum Tree {
    Num(u64),
    Truth(bool),
    Var {
        name: u16,
        index: u64,
    },
    Binop {
        op: Op,
        left: usize,
        right: usize,
    },
    Eq {
        left: usize,
        right: usize,
    },
    App {
        function: usize,
        argument: usize,
    },
    Lam {
        name: u16,
        body: usize,
    },
    Let {
        name: u16,
        bound: usize,
        body: usize,
    },
    If {
        condition: usize,
        yes: usize,
        no: usize,
    },
}

/// What the reader has opened and not yet closed.
#[derive(Clone, Copy, PartialEq, Eq)]
pub enum Mark {
    Lambda { name: u16 },
    Thunk,
    Let { name: u16, bound: usize },
}

/// Why code is not given back as a listing.
#[derive(Clone, Copy, Debug, PartialEq, Eq)]
pub enum Unread {
    /// There is no room for the listing.
    NoRoom,
    /// The code is no term's.
    NoTranslation,
}

impl fmt::Display for Unread {
    fn fmt<W: fmt::Write>(&self, f: &mut fmt::Formatter<W>) -> fmt::Result {
        f.write_str(match self {
            Unread::NoRoom => "there is no room for the listing",
            Unread::NoTranslation => "the code is no term's",
        })
    }
}

impl Error for Unread {}

/// The scratch of a reader: an arena of trees, the trees not yet used, what is open, how many binders and inputs are in
/// scope, and the records written.
#[derive(Drop)]
pub struct Reader {
    pub nodes: BoundedVec<Tree, MOST_INSTRUCTIONS>,
    pub stack: BoundedVec<usize, MOST_WORK>,
    pub marks: BoundedVec<Mark, MOST_INSTRUCTIONS>,
    pub scope: u64,
    pub records: BoundedVec<Node, MOST_WRITTEN>,
}
