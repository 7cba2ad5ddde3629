//! Loading a listing: its check, and then its translation.
ghost use Rattle.std.specs.Prelude.{◌≡◌, ◌≤◌, [], IfOk, vec_capacity};
ghost use Rattle.semantics.specs.Sizes.{most_instructions};
ghost use Rattle.formula.specs.Load.{Loaded};

use crate::check::Checker;
use crate::refusal::Refusal;
use crate::translate::Translator;
use domain::Domain;
use semantics::layout::{Instruction, MOST_INSTRUCTIONS, Node};
use std::alloc::{AllocError, Global};

/// Code, with room for the longest. A vector and no BoundedVec, since translation promises that its capacity stays.
#[derive(Drop)]
pub struct Code {
    pub items: Vec<Instruction>,
    ghost room: { most_instructions ≤ vec_capacity items },
}

impl Code {
    /// No code, with its room reserved.
    pub fn new(heap: Global) -> Result<Code, AllocError>
        ensures { IfOk result (λ c. c.items.items ≡ []) }
    {
        let items = Vec::with_capacity(heap, MOST_INSTRUCTIONS)?;
        Ok(Code { items })
    }
}

/// The scratch of loading, reserved once.
#[derive(Drop)]
pub struct Loader {
    checker: Checker,
    translator: Translator,
}

impl Loader {
    /// Reserves the scratch.
    pub fn new(heap: Global) -> Result<Loader, AllocError> {
        let checker = Checker::new(heap)?;
        let translator = Translator::new(heap)?;
        Ok(Loader {
            checker,
            translator,
        })
    }

    // Domain, names and listing stand side by side as in `Checker::check`, where it is said why.

    /// Replaces the code by the translation of a listing whose inputs have these names, and answers its length; or answers
    /// the first refusal that fits, and leaves the code as it was.
    pub fn load<D: Domain>(
        &mut self,
        domain: &D,
        names: &[u16],
        listing: &[Node],
        code: &mut Code,
    ) -> Result<usize, Refusal>
        ensures { Loaded (D.Domain.meaning domain.now) names.now listing.now code.old.items.items code.new.items.items result }
    {
        self.checker.check(domain, names, listing)?;
        self.translator.translate(listing, &mut code.items);
        Ok(code.items.len())
    }
}
