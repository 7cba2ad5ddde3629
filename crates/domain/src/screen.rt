//! Screen: a layer that asks about both operands of every operation.
ghost use Rattle.std.specs.Prelude.{◌≡◌, true, ◌&&◌, if◌then◌else◌, Ok, Err};
ghost use Rattle.domain.specs.Meaning.{Answers, fault_of};
ghost use Rattle.domain.specs.Screen.{screen, screened};

use crate::{Cause, Domain, Fault, Op};

/// Screen over a domain: lawful codes and sameness are those below.
#[derive(Clone, Copy)]
pub struct Screen<D> {
    pub below: D,
}

/// Goes on where both operands are lawful, and faults at this height where one is not.
pub fn require_lawful(left_lawful: bool, right_lawful: bool, height: u8) -> Result<(), Fault>
    ensures { result ≡ (if left_lawful && right_lawful then Ok tt else Err (fault_of Cause.UnlawfulOperand height)) }
{
    if left_lawful && right_lawful {
        Ok(())
    } else {
        Err(Fault::new(Cause::UnlawfulOperand, height))
    }
}

impl<D: Domain> Domain for Screen<D> {
    ghost meaning = { λ s. screen (D.Domain.meaning s.below) };

    fn is_lawful(&self, code: u64) -> bool {
        self.below.is_lawful(code)
    }

    /// Unlike other domains, a Screen answers by its table at every code.
    fn apply(&self, op: Op, left: u64, right: u64) -> Result<u64, Fault>
        ensures answers { Answers (screen (D.Domain.meaning self.now.below)) op left right result }
        ensures screens { result ≡ screened (D.Domain.meaning self.now.below) op left right }
    {
        require_lawful(
            self.below.is_lawful(left),
            self.below.is_lawful(right),
            self.height(),
        )?;
        // By `?`, the form that DECISIONS.md lists.
        let answer = self.below.apply(op, left, right)?;
        Ok(answer)
    }

    fn is_same(&self, left: u64, right: u64) -> bool {
        self.below.is_same(left, right)
    }

    fn height(&self) -> u8 {
        self.below.height().saturating_add(1)
    }
}
