//! The kinds of records and of instructions.
ghost use Rattle.std.specs.Prelude.{◌≡◌};
ghost use Rattle.semantics.specs.Kinds.{Decodes, instr_kind_number, node_kind_number};

use domain::UnknownOp;
use std::error::Error;
use std::fmt;

/// A record or an instruction has an unknown kind, or a field outside its table.
#[derive(Clone, Copy, Debug, PartialEq, Eq)]
pub struct OutsideTable;

impl fmt::Display for OutsideTable {
    fn fmt<W: fmt::Write>(&self, f: &mut fmt::Formatter<W>) -> fmt::Result {
        f.write_str("an unknown kind, or a field outside its table")
    }
}

impl Error for OutsideTable {}

impl From<UnknownOp> for OutsideTable {
    fn from(_unknown: UnknownOp) -> OutsideTable {
        OutsideTable
    }
}

/// The kinds of records.
#[derive(Clone, Copy, Debug, PartialEq, Eq)]
pub enum NodeKind {
    Num = 1,
    Truth,
    Var,
    Binop,
    Eq,
    App,
    Lam,
    Let,
    If,
}

impl From<NodeKind> for u8 {
    ghost from_gives = { λ kind number. number ≡ node_kind_number kind };

    fn from(kind: NodeKind) -> u8 {
        kind as u8
    }
}

impl TryFrom<u8> for NodeKind {
    type Error = OutsideTable;

    ghost try_from_gives = { Decodes node_kind_number };

    fn try_from(number: u8) -> Result<NodeKind, OutsideTable> {
        match number {
            1 => Ok(NodeKind::Num),
            2 => Ok(NodeKind::Truth),
            3 => Ok(NodeKind::Var),
            4 => Ok(NodeKind::Binop),
            5 => Ok(NodeKind::Eq),
            6 => Ok(NodeKind::App),
            7 => Ok(NodeKind::Lam),
            8 => Ok(NodeKind::Let),
            9 => Ok(NodeKind::If),
            _ => Err(OutsideTable),
        }
    }
}

/// The kinds of instructions.
#[derive(Clone, Copy, Debug, PartialEq, Eq)]
pub enum InstrKind {
    End,
    PushNum,
    PushTruth,
    Access,
    PushClosure,
    PushThunk,
    Operate,
    Compare,
    Bind,
    Unbind,
    Apply,
    Return,
    Choose,
}

impl From<InstrKind> for u8 {
    ghost from_gives = { λ kind number. number ≡ instr_kind_number kind };

    fn from(kind: InstrKind) -> u8 {
        kind as u8
    }
}

impl TryFrom<u8> for InstrKind {
    type Error = OutsideTable;

    ghost try_from_gives = { Decodes instr_kind_number };

    fn try_from(number: u8) -> Result<InstrKind, OutsideTable> {
        match number {
            0 => Ok(InstrKind::End),
            1 => Ok(InstrKind::PushNum),
            2 => Ok(InstrKind::PushTruth),
            3 => Ok(InstrKind::Access),
            4 => Ok(InstrKind::PushClosure),
            5 => Ok(InstrKind::PushThunk),
            6 => Ok(InstrKind::Operate),
            7 => Ok(InstrKind::Compare),
            8 => Ok(InstrKind::Bind),
            9 => Ok(InstrKind::Unbind),
            10 => Ok(InstrKind::Apply),
            11 => Ok(InstrKind::Return),
            12 => Ok(InstrKind::Choose),
            _ => Err(OutsideTable),
        }
    }
}
