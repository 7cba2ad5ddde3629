//! The check that every variable is in scope, by one walk over the listing.
ghost use Rattle.std.specs.Prelude.{◌≡◌, ◌+◌, ◌<◌, ◌≤◌, [], ◌∷◌, ◌++◌, length, slice_get, IfOk, IfSome, IfNone, vec_capacity};
ghost use Rattle.std.specs.Option.{option_to_list};
ghost use Rattle.semantics.specs.Sizes.{most_records};
ghost use Rattle.formula.specs.Check.{label_in_scope, scopes_below, scoped};
ghost use Rattle.formula.specs.Scopes.{most_owed};

use crate::refusal::Refusal;
use semantics::layout::{Label, MOST_RECORDS, Node};
use std::alloc::{AllocError, Global};
use std::marker::Model;
use std::mem;

/// The most terms that are owed at a time: one, and three for each record.
pub const MOST_OWED: usize = 3 * MOST_RECORDS + 1;

/// A term still owed: how many binders of the path it is under, and the binder that it is under besides.
#[derive(Clone, Copy)]
pub struct Owed {
    depth: usize,
    binder: Option<u16>,
}

/// A walk over a listing: the terms still owed, the next one last, and the binders on the path to the node at hand, the
/// outermost first. A clause sees the binders of each, innermost first. Vectors and no BoundedVecs, since `check_scopes`
/// promises of those of a caller that their capacities stay.
#[derive(Drop)]
pub struct Walk {
    owed: Vec<Owed>,
    path: Vec<u16>,
}

impl Model for Walk {
    ghost use Rattle.std.specs.Prelude.{◌≤◌, map, reverse, length, vec_items, vec_capacity};
    ghost use Rattle.semantics.specs.Sizes.{most_records};
    ghost use Rattle.formula.specs.Scopes.{Walked, Falling, binders_of, most_owed};

    ghost Value = { Walked };

    ghost view = { λ w. record { here = reverse (vec_items w.path); owed = map (binders_of (vec_items w.path)) (reverse (vec_items w.owed)); capacities = (vec_capacity w.owed, vec_capacity w.path) } };

    ghost invariant = { λ w. Falling (length (vec_items w.path)) (reverse (vec_items w.owed)) × (most_owed ≤ vec_capacity w.owed) × (most_records ≤ vec_capacity w.path) };
}

impl Walk {
    /// Reserves the scratch.
    pub fn new(heap: Global) -> Result<Walk, AllocError>
        ensures { IfOk result (λ w. (w.here ≡ []) × (w.owed ≡ [])) }
    {
        let owed = Vec::with_capacity(heap, MOST_OWED)?;
        let path = Vec::with_capacity(heap, MOST_RECORDS)?;
        Ok(Walk { owed, path })
    }

    /// The name past so many of those in scope at the node at hand, innermost first.
    fn name_at(&self, names: &[u16], between: u64) -> Option<u16>
        ensures { result ≡ slice_get (self.now.here ++ names.now) between }
    {
        let between = usize::try_from(between).ok()?;
        match between.checked_sub(self.path.len()) {
            None => Some(self.path[self.path.len() - 1 - between]),
            Some(past) => names.get(past).copied(),
        }
    }

    /// A record is in scope at the node at hand.
    #[tactic(auto, using(crate::proofs::Scopes::bears_at))]
    fn is_in_scope(&self, names: &[u16], label: Label) -> bool
        ensures { result ≡ label_in_scope label (self.now.here ++ names.now) }
    {
        match label {
            Label::Var { name, between } => self.name_at(names, between) == Some(name),
            Label::Num(_)
            | Label::Truth(_)
            | Label::Binop(_)
            | Label::Eq
            | Label::App
            | Label::Lam { .. }
            | Label::Let { .. }
            | Label::If => true,
        }
    }

    /// One more term is owed below the node at hand, before all others.
    fn owe(&mut self, binder: Option<u16>)
        requires { length self.old.owed < most_owed }
        ensures { self.new ≡ record self.old { owed = (option_to_list binder ++ self.old.here) ∷ self.old.owed } }
    {
        let depth = self.path.len();
        self.owed.push_reserved(Owed { depth, binder });
    }

    /// The children of the node at hand are owed, the first before the others.
    fn owe_children(&mut self, label: Label)
        requires { length self.old.owed + 3 ≤ most_owed }
        ensures { self.new ≡ record self.old { owed = scopes_below label self.old.here self.old.owed } }
    {
        match label {
            Label::Num(_) | Label::Truth(_) | Label::Var { .. } => {}
            Label::Lam { name } => self.owe(Some(name)),
            Label::Binop(_) | Label::Eq | Label::App => {
                self.owe(None);
                self.owe(None);
            }
            Label::Let { name } => {
                self.owe(Some(name));
                self.owe(None);
            }
            Label::If => {
                self.owe(None);
                self.owe(None);
                self.owe(None);
            }
        }
    }

    /// One term is owed, under no binder.
    fn begin(&mut self)
        ensures { self.new ≡ record self.old { here = []; owed = [] ∷ [] } }
    {
        self.owed.clear();
        self.path.clear();
        self.owe(None);
    }

    /// Goes to the node of the next term owed, if one is.
    fn enter(&mut self) -> Option<()>
        requires { length self.old.here < most_records }
        ensures some { IfSome result (λ _. self.old.owed ≡ self.new.here ∷ self.new.owed) }
        ensures none { IfNone result (self.old.owed ≡ []) }
        ensures deeper { length self.new.here ≤ length self.old.here + 1 }
        ensures capacities { self.new.capacities ≡ self.old.capacities }
    {
        let next = self.owed.pop()?;
        self.path.truncate(next.depth);
        if let Some(name) = next.binder {
            self.path.push_reserved(name);
        }
        Some(())
    }

    /// Every variable is in scope.
    // That the listing is short is asked here as in check.rt, which says why.
    pub fn check_scopes(&mut self, names: &[u16], listing: &[Node]) -> Result<(), Refusal>
        requires { length listing.now ≤ most_records }
        ensures scoped { result ≡ scoped 0 (names.now ∷ []) listing.now }
        ensures capacities { self.new.capacities ≡ self.old.capacities }
    {
        self.begin();
        for (place, node) in listing.iter().enumerate() {
            let Some(()) = self.enter() else {
                return Ok(());
            };
            let Ok(label) = Label::try_from(*node) else {
                return Err(Refusal::OutOfScope(place));
            };
            if !self.is_in_scope(names, label) {
                return Err(Refusal::OutOfScope(place));
            }
            self.owe_children(label);
        }
        Ok(())
    }
}

/// Every variable is in scope, by a walk in vectors of the caller.
pub fn check_scopes(
    owed: &mut Vec<Owed>,
    path: &mut Vec<u16>,
    names: &[u16],
    listing: &[Node],
) -> Result<(), Refusal>
    requires few { length listing.now ≤ most_records }
    requires owing { most_owed ≤ vec_capacity owed.old }
    requires room { most_records ≤ vec_capacity path.old }
    ensures scoped { result ≡ scoped 0 (names.now ∷ []) listing.now }
    ensures capacities { (vec_capacity owed.new ≡ vec_capacity owed.old) × (vec_capacity path.new ≡ vec_capacity path.old) }
{
    owed.clear();
    path.clear();
    let heap = *owed.allocator();
    let mut walk = Walk {
        owed: mem::replace(owed, Vec::new(heap)),
        path: mem::replace(path, Vec::new(heap)),
    };
    let answer = walk.check_scopes(names, listing);
    let Walk {
        owed: owed_room,
        path: path_room,
    } = walk;
    *owed = owed_room;
    *path = path_room;
    answer
}

#[cfg(test)]
mod tests {
    use super::{MOST_OWED, Walk, check_scopes};
    use crate::refusal::Refusal;
    use semantics::kind::NodeKind;
    use semantics::layout::{MOST_RECORDS, Node};
    use std::alloc::AllocError;

    #[test]
    fn finds_an_input(rt: HostRuntime) -> Result<(), AllocError> {
        let mut walk = Walk::new(rt.alloc())?;
        let listing = [
            Node::new(NodeKind::Lam, 5, 0),
            Node::new(NodeKind::Var, 7, 2),
        ];
        assert!(rt; walk.check_scopes(&[7], &listing) == Ok(()));
        assert!(rt; walk.check_scopes(&[8], &listing) == Err(Refusal::OutOfScope(1)));
        let mut owed = Vec::with_capacity(rt.alloc(), MOST_OWED)?;
        let mut path = Vec::with_capacity(rt.alloc(), MOST_RECORDS)?;
        assert!(rt; check_scopes(&mut owed, &mut path, &[7], &listing) == Ok(()));
        Ok(())
    }
}
