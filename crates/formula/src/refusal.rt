//! Why a listing or code is refused.
ghost use Rattle.std.specs.Prelude.{◌≡◌};
ghost use Rattle.formula.specs.Refusal.{refusal_number, refusal_place};

use std::error::Error;
use std::fmt;

/// Why a listing or code is refused. A place counts records or instructions from 0.
#[derive(Clone, Copy, Debug, PartialEq, Eq)]
pub enum Refusal {
    /// There are no records or too many, or too many names.
    Size,
    /// This record or instruction has an unknown kind, or a field outside its table.
    OutsideTable(usize),
    /// The number at this place is not lawful.
    Unlawful(usize),
    /// The listing ends here, before its term does.
    EndsEarly(usize),
    /// The listing goes on here, after its term has ended.
    RecordsOver(usize),
    /// The variable at this place points past all inputs, or bears another name than what it points to.
    OutOfScope(usize),
    /// No listing that passes has this code.
    NoTranslation,
}

impl Refusal {
    /// The number by which the refusal is known. The rules give it, and two refusals share one.
    pub fn number(&self) -> u8
        ensures { result ≡ refusal_number self.now }
    {
        match self {
            Refusal::Size => 1,
            Refusal::OutsideTable(_) => 2,
            Refusal::Unlawful(_) => 3,
            Refusal::EndsEarly(_) | Refusal::RecordsOver(_) => 4,
            Refusal::OutOfScope(_) => 5,
            Refusal::NoTranslation => 6,
        }
    }

    /// The place that it names, or 0.
    pub fn place(&self) -> usize
        ensures { result ≡ refusal_place self.now }
    {
        match self {
            Refusal::Size | Refusal::NoTranslation => 0,
            Refusal::OutsideTable(place)
            | Refusal::Unlawful(place)
            | Refusal::EndsEarly(place)
            | Refusal::RecordsOver(place)
            | Refusal::OutOfScope(place) => *place,
        }
    }
}

/// A refusal by its number and its place.
impl fmt::Display for Refusal {
    fn fmt<W: fmt::Write>(&self, f: &mut fmt::Formatter<W>) -> fmt::Result {
        let (number, place) = (self.number(), self.place());
        write!(f, "refused {number} at {place}")
    }
}

impl Error for Refusal {}
