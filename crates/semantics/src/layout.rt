//! What a record of a listing and an instruction of code say, and the caller's layout of them.
ghost use Rattle.std.specs.Prelude.{◌≡◌};
ghost use Rattle.semantics.specs.Kinds.{record_with};

use crate::kind::NodeKind;
use domain::Op;
use std::fmt;

/// An instruction of the machine. Those that can fault also have the place of their node in the listing: it is no field of
/// the caller's layout, but what a fault there names.
#[derive(Clone, Copy)]
pub enum Instruction {
    /// END: the top value is the term's.
    End,
    /// NUM pushes the number that it names.
    PushNum(u64),
    /// BOOL pushes the boolean that it names.
    PushTruth(bool),
    /// ACCESS pushes the value past so many others in the environment.
    Access { name: u16, between: u64 },
    /// CLOSURE pushes a closure of the body that follows, so many instructions long with its RETURN, and goes past it.
    PushClosure { name: u16, length: u16 },
    /// THUNK pushes a thunk of the body that follows, so many instructions long with its RETURN, and goes past it.
    PushThunk { length: u16 },
    /// OP works on the two values on top.
    Operate { op: Op, place: u16 },
    /// EQ compares the two values on top.
    Compare { place: u16 },
    /// LET puts the top value in front of the environment.
    Bind { name: u16 },
    /// ENDLET drops the front of the environment.
    Unbind,
    /// APPLY enters a closure's body.
    Apply { place: u16 },
    /// RETURN leaves a body.
    Return,
    /// IF enters one of two thunks.
    Choose { place: u16 },
}

/// An instruction by its word, with its name and number where it has them.
impl fmt::Display for Instruction {
    fn fmt<W: fmt::Write>(&self, f: &mut fmt::Formatter<W>) -> fmt::Result {
        match *self {
            Instruction::End => write!(f, "END"),
            Instruction::PushNum(code) => write!(f, "NUM.{code}"),
            Instruction::PushTruth(truth) => write!(f, "BOOL.{truth}"),
            Instruction::Access { name, between } => {
                let index = between.saturating_add(1);
                write!(f, "ACCESS.{name}.{index}")
            }
            Instruction::PushClosure { name, length } => write!(f, "CLOSURE.{name}.{length}"),
            Instruction::PushThunk { length } => write!(f, "THUNK.{length}"),
            Instruction::Operate { op: Op::Add, .. } => write!(f, "ADD"),
            Instruction::Operate { op: Op::Sub, .. } => write!(f, "SUB"),
            Instruction::Operate { op: Op::Mul, .. } => write!(f, "MUL"),
            Instruction::Operate { op: Op::Div, .. } => write!(f, "DIV"),
            Instruction::Compare { .. } => write!(f, "EQ"),
            Instruction::Bind { name } => write!(f, "LET.{name}"),
            Instruction::Unbind => write!(f, "ENDLET"),
            Instruction::Apply { .. } => write!(f, "APPLY"),
            Instruction::Return => write!(f, "RETURN"),
            Instruction::Choose { .. } => write!(f, "IF"),
        }
    }
}

/// What a record says: its node without the children.
#[derive(Clone, Copy)]
pub enum Label {
    Num(u64),
    Truth(bool),
    Var { name: u16, between: u64 },
    Binop(Op),
    Eq,
    App,
    Lam { name: u16 },
    Let { name: u16 },
    If,
}

/// The most records of a listing.
pub const MOST_RECORDS: usize = 512;

/// The most names of inputs.
pub const MOST_NAMES: usize = 32;

/// The most instructions of a code.
pub const MOST_INSTRUCTIONS: usize = 1_194;

/// A record of a listing, as the caller lays it out: any number may stand in it, and one outside the table is refused.
#[derive(Clone, Copy, PartialEq, Eq)]
pub struct Node {
    pub kind: u8,
    pub name: u16,
    pub number: u64,
}

impl Node {
    pub fn new(kind: NodeKind, name: u16, number: u64) -> Node
        ensures { result ≡ record_with kind name number }
    {
        Node {
            kind: u8::from(kind),
            name,
            number,
        }
    }
}

/// A record by its kind, name and number.
impl fmt::Display for Node {
    fn fmt<W: fmt::Write>(&self, f: &mut fmt::Formatter<W>) -> fmt::Result {
        let Node { kind, name, number } = *self;
        write!(f, "{kind}.{name}.{number}")
    }
}

/// An instruction of code, as the caller lays it out. It is no record: what one may hold, the other may not.
#[derive(Clone, Copy, PartialEq, Eq)]
pub struct Instr {
    pub kind: u8,
    pub name: u16,
    pub number: u64,
}
