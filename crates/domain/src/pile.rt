//! Pile: any number of layers over a bottom domain, chosen when the program runs.
ghost use Rattle.std.specs.Prelude.{◌≡◌, ◌+◌, ◌<◌, min, true, Err};
ghost use Rattle.domain.specs.Meaning.{Answers};
ghost use Rattle.domain.specs.Pile.{bottom_of, layers, piled};

use crate::screen::require_lawful;
use crate::{Domain, Fault, Op};

/// A bottom domain, or a layer over another pile.
#[derive(Drop)]
pub enum Pile<B> {
    Bottom(B),
    Screen(Box<Pile<B>>),
}

impl<B: Domain> Domain for Pile<B> {
    ghost meaning = { piled B.Domain.meaning };

    fn is_lawful(&self, code: u64) -> bool {
        match self {
            Pile::Bottom(bottom) => bottom.is_lawful(code),
            Pile::Screen(below) => below.is_lawful(code),
        }
    }

    /// Under a layer the answer goes by the pile's table at every code; a fault of the bottom comes up as it was.
    fn apply(&self, op: Op, left: u64, right: u64) -> Result<u64, Fault>
        ensures answers { Answers (piled B.Domain.meaning self.now) op left right result }
        ensures screens { 0 < layers self.now → result ≡ (piled B.Domain.meaning self.now).table op left right }
        ensures passes { (f : Fault) → (B.Domain.meaning (bottom_of self.now)).lawful left ≡ true → (B.Domain.meaning (bottom_of self.now)).lawful right ≡ true → (B.Domain.meaning (bottom_of self.now)).table op left right ≡ Err f → result ≡ Err f }
    {
        match self {
            Pile::Bottom(bottom) => bottom.apply(op, left, right),
            // Written out as in Screen: the check takes no recursion through Screen's own impl or a generic function.
            Pile::Screen(below) => {
                require_lawful(below.is_lawful(left), below.is_lawful(right), self.height())?;
                // By `?`, the form that DECISIONS.md lists.
                let answer = below.apply(op, left, right)?;
                Ok(answer)
            }
        }
    }

    fn is_same(&self, left: u64, right: u64) -> bool {
        match self {
            Pile::Bottom(bottom) => bottom.is_same(left, right),
            Pile::Screen(below) => below.is_same(left, right),
        }
    }

    fn height(&self) -> u8
        ensures value { result ≡ (piled B.Domain.meaning self.now).height }
        ensures rises { result ≡ min ((B.Domain.meaning (bottom_of self.now)).height + layers self.now) 255 }
    {
        match self {
            Pile::Bottom(bottom) => bottom.height(),
            Pile::Screen(below) => below.height().saturating_add(1),
        }
    }
}
