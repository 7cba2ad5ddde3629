//! The checks of a listing.
ghost use Rattle.std.specs.Prelude.{◌≡◌, ◌+◌, ◌^◌, ◌<◌, ◌≤◌, length, OnOk};
ghost use Rattle.semantics.specs.Counting.{count, owed_after};
ghost use Rattle.semantics.specs.Sizes.{most_records};
ghost use Rattle.formula.specs.Check.{CheckDecides, checked, each_passes, exact, has_label, lawful_number, sized};

use crate::refusal::Refusal;
use crate::scope::Walk;
use domain::Domain;
use semantics::kind::{NodeKind, OutsideTable};
use semantics::layout::{Label, MOST_NAMES, MOST_RECORDS, Node};
use std::alloc::{AllocError, Global};

// The bound on the records is asked of the caller's slice by the two checks behind it and by translation: a type for a short
// slice would be taken off again in each of them.

/// There are records, not too many, and not too many names.
fn check_sizes(names: &[u16], listing: &[Node]) -> Result<(), Refusal>
    ensures checked { result ≡ sized names.now listing.now }
    ensures few { OnOk result (length listing.now ≤ most_records) }
{
    if listing.is_empty() || listing.len() > MOST_RECORDS || names.len() > MOST_NAMES {
        return Err(Refusal::Size);
    }
    Ok(())
}

/// Every record is in the table.
fn check_table(listing: &[Node]) -> Result<(), Refusal>
    ensures { result ≡ each_passes has_label Refusal.OutsideTable 0 listing.now }
{
    listing
        .iter()
        .position(|node| Label::try_from(*node).is_err())
        .map_or(Ok(()), |place| Err(Refusal::OutsideTable(place)))
}

/// A record's number, if it is one, is lawful.
fn is_lawful_number<D: Domain>(domain: &D, node: &Node) -> bool
    ensures { result ≡ lawful_number (D.Domain.meaning domain.now) node.now }
{
    node.kind != u8::from(NodeKind::Num) || domain.is_lawful(node.number)
}

/// Every number is lawful.
fn check_numbers<D: Domain>(domain: &D, listing: &[Node]) -> Result<(), Refusal>
    ensures { result ≡ each_passes (lawful_number (D.Domain.meaning domain.now)) Refusal.Unlawful 0 listing.now }
{
    // Alike with the check of the table but for test and refusal: one function over both would need a clause about all that
    // its closure works out, where here the library's `position` has it.
    listing
        .iter()
        .position(|node| !is_lawful_number(domain, node))
        .map_or(Ok(()), |place| Err(Refusal::Unlawful(place)))
}

/// How many terms are owed after a record of this kind, where so many are owed besides it.
#[tactic(auto, using(crate::proofs::Turns::owed_after_unknown))]
fn owed_after(kind: u8, owed: usize) -> usize
    requires { owed < 2 ^ 32 }
    ensures owed { result ≡ owed_after kind owed }
    ensures most { result ≤ owed + 3 }
{
    match NodeKind::try_from(kind) {
        Ok(NodeKind::If) => owed + 3,
        Ok(NodeKind::Binop | NodeKind::Eq | NodeKind::App | NodeKind::Let) => owed + 2,
        Ok(NodeKind::Lam) => owed + 1,
        Ok(NodeKind::Num | NodeKind::Truth | NodeKind::Var) | Err(OutsideTable) => owed,
    }
}

/// The records are those of one term.
fn check_shape(listing: &[Node]) -> Result<(), Refusal>
    requires { length listing.now ≤ most_records }
    ensures { result ≡ exact (length listing.now) (count 1 listing.now) }
{
    let mut owed: usize = 1;
    for (place, node) in listing.iter().enumerate() {
        let Some(others) = owed.checked_sub(1) else {
            return Err(Refusal::RecordsOver(place));
        };
        owed = owed_after(node.kind, others);
    }
    if owed > 0 {
        return Err(Refusal::EndsEarly(listing.len()));
    }
    Ok(())
}

/// The scratch of a check, reserved once.
#[derive(Drop)]
pub struct Checker {
    walk: Walk,
}

impl Checker {
    /// Reserves the scratch.
    pub fn new(heap: Global) -> Result<Checker, AllocError> {
        let walk = Walk::new(heap)?;
        Ok(Checker { walk })
    }

    /// Checks a listing whose inputs have these names: that it passes, or the first refusal that fits.
    // Names and listing are the caller's two slices, and most of the checks look at one of them; the domain is asked about the
    // listing's numbers.
    pub fn check<D: Domain>(
        &mut self,
        domain: &D,
        names: &[u16],
        listing: &[Node],
    ) -> Result<(), Refusal>
        ensures { result ≡ checked (D.Domain.meaning domain.now) names.now listing.now }
    {
        check_sizes(names, listing)?;
        check_table(listing)?;
        check_numbers(domain, listing)?;
        check_shape(listing)?;
        self.walk.check_scopes(names, listing)
    }
}

/// A listing passes exactly when it is that of some well-formed term.
pub fn check_decides()
    ensures { CheckDecides }
{}
