//! A case: a pile of layers over a bottom domain, and what it should answer to a call.
use binary64::Binary64;
use domain::pile::Pile;
use domain::screen::Screen;
use domain::{Domain, Fault, Op};
use std::alloc::{AllocError, Global};
use std::num::ParseIntError;
use std::str::{FromStr, Split};
use whole::Whole;

#[derive(Clone, Copy)]
enum Bottom {
    Whole,
    Binary64,
}

/// A call of a domain, and the answer that it should give.
#[derive(Clone, Copy)]
enum Claim {
    Lawful(u64, bool),
    Same(u64, u64, bool),
    Apply(Op, u64, u64, Result<u64, Fault>),
    Height(u8),
}

impl Claim {
    fn holds<D: Domain>(&self, domain: &D) -> bool {
        match *self {
            Claim::Lawful(code, answer) => domain.is_lawful(code) == answer,
            Claim::Same(left, right, answer) => domain.is_same(left, right) == answer,
            Claim::Apply(op, left, right, answer) => domain.apply(op, left, right) == answer,
            Claim::Height(answer) => domain.height() == answer,
        }
    }
}

#[derive(Clone, Copy)]
pub(crate) struct Case {
    layers: u16,
    bottom: Bottom,
    claim: Claim,
}

impl Case {
    /// Whether the pile answers as it should; so should a bottom alone, and one Screen over it.
    // A bottom is a type, so the choice of one is a match; it is made here alone.
    pub(crate) fn holds(&self, heap: Global) -> Result<bool, AllocError> {
        match self.bottom {
            Bottom::Whole => self.holds_over(heap, Whole),
            Bottom::Binary64 => self.holds_over(heap, Binary64),
        }
    }

    fn holds_over<B: Domain + Copy>(&self, heap: Global, bottom: B) -> Result<bool, AllocError> {
        let alone = match self.layers {
            0 => self.claim.holds(&bottom),
            1 => self.claim.holds(&Screen { below: bottom }),
            _ => true,
        };
        let pile = screens_over(heap, bottom, self.layers)?;
        Ok(alone && self.claim.holds(&pile))
    }
}

/// So many Screens over a bottom.
fn screens_over<B: Drop>(heap: Global, bottom: B, layers: u16) -> Result<Pile<B>, AllocError> {
    let mut pile = Pile::Bottom(bottom);
    for _ in 0..layers {
        pile = Pile::Screen(Box::new(heap, pile)?);
    }
    Ok(pile)
}

/// Why a line is no case.
#[derive(Clone, Copy)]
pub(crate) enum ParseCaseError {
    TooShort,
    TooLong,
    UnknownWord,
    BadNumber,
}

impl From<ParseIntError> for ParseCaseError {
    fn from(_error: ParseIntError) -> ParseCaseError {
        ParseCaseError::BadNumber
    }
}

impl FromStr for Bottom {
    type Err = ParseCaseError;

    fn from_str(word: &str) -> Result<Bottom, ParseCaseError> {
        match word {
            "whole" => Ok(Bottom::Whole),
            "binary64" => Ok(Bottom::Binary64),
            _ => Err(ParseCaseError::UnknownWord),
        }
    }
}

/// A line is LAYERS BOTTOM CALL OPERANDS.. ANSWER, with one space between words.
impl FromStr for Case {
    type Err = ParseCaseError;

    fn from_str(line: &str) -> Result<Case, ParseCaseError> {
        let mut words = Words(line.split(' '));
        let case = Case {
            layers: words.word()?.parse()?,
            bottom: words.word()?.parse()?,
            claim: words.claim()?,
        };
        match words.0.next() {
            None => Ok(case),
            Some(_) => Err(ParseCaseError::TooLong),
        }
    }
}

/// The words of a line that are still to be read.
#[derive(Drop)]
struct Words<'a>(Split<'a, char>);

impl<'a> Words<'a> {
    fn word(&mut self) -> Result<&'a str, ParseCaseError> {
        self.0.next().ok_or(ParseCaseError::TooShort)
    }

    fn code(&mut self) -> Result<u64, ParseCaseError> {
        Ok(u64::from_str_radix(self.word()?, 16)?)
    }

    fn is_yes(&mut self) -> Result<bool, ParseCaseError> {
        Ok(self.word()? == "yes")
    }

    fn claim(&mut self) -> Result<Claim, ParseCaseError> {
        match self.word()? {
            "lawful" => Ok(Claim::Lawful(self.code()?, self.is_yes()?)),
            "same" => Ok(Claim::Same(self.code()?, self.code()?, self.is_yes()?)),
            "height" => Ok(Claim::Height(self.word()?.parse()?)),
            "add" => self.apply(Op::Add),
            "sub" => self.apply(Op::Sub),
            "mul" => self.apply(Op::Mul),
            "div" => self.apply(Op::Div),
            _ => Err(ParseCaseError::UnknownWord),
        }
    }

    fn apply(&mut self, op: Op) -> Result<Claim, ParseCaseError> {
        Ok(Claim::Apply(op, self.code()?, self.code()?, self.answer()?))
    }

    /// The code that an operation answers, or `fault CAUSE HEIGHT`.
    fn answer(&mut self) -> Result<Result<u64, Fault>, ParseCaseError> {
        match self.word()? {
            "fault" => Ok(Err(Fault {
                cause: self.word()?.parse()?,
                height: self.word()?.parse()?,
            })),
            code => Ok(Ok(u64::from_str_radix(code, 16)?)),
        }
    }
}
