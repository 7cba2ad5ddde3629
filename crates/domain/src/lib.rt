//! Number domains: what a 64-bit code means, what an operation on two codes answers, and layers
//! that stand over any domain.
#![tactic(auto)]

pub mod laws;
pub mod pile;
pub mod screen;

ghost use Rattle.std.specs.Prelude.{◌≡◌};
ghost use Rattle.std.specs.Option.{ok_or};
ghost use Rattle.domain.specs.Meaning.{Answers, Compares, Meaning, fault_of};
ghost use Rattle.domain.specs.Numbers.{cause_number, cause_of, op_number, op_of};

use std::error::Error;
use std::fmt;

/// The operations of every domain. An enum and no closure, since records and instructions name an operation by its number.
#[derive(Clone, Copy, Debug, PartialEq, Eq)]
pub enum Op {
    Add,
    Sub,
    Mul,
    Div,
}

/// A number that is no operation's.
#[derive(Clone, Copy, Debug, PartialEq, Eq)]
pub struct UnknownOp;

impl fmt::Display for UnknownOp {
    fn fmt<W: fmt::Write>(&self, f: &mut fmt::Formatter<W>) -> fmt::Result {
        f.write_str("no operation has this number")
    }
}

impl Error for UnknownOp {}

impl From<Op> for u64 {
    ghost from_gives = { λ op number. number ≡ op_number op };

    fn from(op: Op) -> u64 {
        op as u64 + 1
    }
}

impl TryFrom<u64> for Op {
    type Error = UnknownOp;

    ghost try_from_gives = { λ number result. result ≡ ok_or (op_of number) record {} };

    fn try_from(number: u64) -> Result<Op, UnknownOp> {
        match number {
            1 => Ok(Op::Add),
            2 => Ok(Op::Sub),
            3 => Ok(Op::Mul),
            4 => Ok(Op::Div),
            _ => Err(UnknownOp),
        }
    }
}

/// Why an operation has no number as its answer: the causes that the domains of this library give.
/// A domain of another make may give any other 8-bit number.
#[derive(Clone, Copy, Debug, PartialEq, Eq)]
pub enum Cause {
    /// The result is not a lawful code.
    UnlawfulResult = 1,
    /// The divisor is zero.
    ZeroDivisor = 2,
    /// An operand is not a lawful code.
    UnlawfulOperand = 3,
}

/// A number that is the cause of no domain of this library.
#[derive(Clone, Copy, Debug, PartialEq, Eq)]
pub struct UnknownCause;

impl From<Cause> for u8 {
    ghost from_gives = { λ cause number. number ≡ cause_number cause };

    fn from(cause: Cause) -> u8 {
        cause as u8
    }
}

impl TryFrom<u8> for Cause {
    type Error = UnknownCause;

    ghost try_from_gives = { λ number result. result ≡ ok_or (cause_of number) record {} };

    fn try_from(number: u8) -> Result<Cause, UnknownCause> {
        match number {
            1 => Ok(Cause::UnlawfulResult),
            2 => Ok(Cause::ZeroDivisor),
            3 => Ok(Cause::UnlawfulOperand),
            _ => Err(UnknownCause),
        }
    }
}

impl fmt::Display for Cause {
    fn fmt<W: fmt::Write>(&self, f: &mut fmt::Formatter<W>) -> fmt::Result {
        f.write_str(match self {
            Cause::UnlawfulResult => "the result is not lawful",
            Cause::ZeroDivisor => "the divisor is zero",
            Cause::UnlawfulOperand => "an operand is not lawful",
        })
    }
}

impl fmt::Display for UnknownCause {
    fn fmt<W: fmt::Write>(&self, f: &mut fmt::Formatter<W>) -> fmt::Result {
        f.write_str("a cause of another domain")
    }
}

impl Error for UnknownCause {}

/// A fault: why an operation has no number as its answer, and the height of the domain that said so.
#[derive(Clone, Copy, Debug, PartialEq, Eq)]
pub struct Fault {
    // A number, since a domain of another make may give any cause; `Cause` names ours.
    pub cause: u8,
    pub height: u8,
}

impl Fault {
    pub fn new(cause: Cause, height: u8) -> Fault
        ensures { result ≡ fault_of cause height }
    {
        Fault {
            cause: u8::from(cause),
            height,
        }
    }
}

impl fmt::Display for Fault {
    fn fmt<W: fmt::Write>(&self, f: &mut fmt::Formatter<W>) -> fmt::Result {
        let Fault { cause, height } = *self;
        write!(f, "cause {cause} at height {height}: ")?;
        match Cause::try_from(cause) {
            Ok(known) => write!(f, "{known}"),
            Err(unknown) => write!(f, "{unknown}"),
        }
    }
}

impl Error for Fault {}

/// The height of a domain that stands on no other.
pub const BOTTOM_HEIGHT: u8 = 1;

/// A number domain: one call for each part of its meaning. No call changes the domain or refuses a code.
pub trait Domain {
    ghost meaning: { Self → Meaning };

    fn is_lawful(&self, code: u64) -> bool
        ensures { result ≡ (meaning self.now).lawful code };

    /// The answer at an unlawful code is free.
    // The operation and its operands in a row read as what is worked out, and so do the two codes of `is_same`: a struct would
    // be made and taken apart at each call.
    fn apply(&self, op: Op, left: u64, right: u64) -> Result<u64, Fault>
        ensures answers { Answers (meaning self.now) op left right result };

    /// The answer at an unlawful code is free.
    fn is_same(&self, left: u64, right: u64) -> bool
        ensures compares { Compares (meaning self.now) left right result };

    fn height(&self) -> u8
        ensures { result ≡ (meaning self.now).height };
}
