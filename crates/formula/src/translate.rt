//! Translation of a listing into code: one pass from the last record to the first measures every term, and one walk
//! from the root emits the code.
ghost use Rattle.std.specs.Prelude.{◌≡◌, ◌+◌, ◌<◌, ◌≤◌, min, ◌∷◌, reverse, length, vec_capacity};
ghost use Rattle.semantics.specs.Terms.{Term};
ghost use Rattle.semantics.specs.Listing.{listing as listing_of};
ghost use Rattle.semantics.specs.Translation.{translate};
ghost use Rattle.semantics.specs.Sizes.{most_records, most_instructions};
ghost use Rattle.semantics.specs.Label.{label_of};
ghost use Rattle.formula.specs.Translate.{Emits, EmitsBody, EmitsPair, Grows, Measured, alone, measure_of, measured_at, max_u16, together, whole, with_child};

use bounded::BoundedVec;
use semantics::layout::{Instruction, Label, MOST_RECORDS, Node};
use std::alloc::{AllocError, Global};

/// How many records a term has, and how many instructions its code.
#[derive(Clone, Copy, Default)]
struct Extent {
    records: u16,
    instructions: u16,
}

impl Extent {
    /// Two extents together.
    fn and(self, other: Extent) -> Extent
        ensures { result ≡ together self other }
    {
        Extent {
            records: self.records.saturating_add(other.records),
            instructions: self.instructions.saturating_add(other.instructions),
        }
    }

    /// A record without its children: the instructions are its own.
    fn alone(label: Label) -> Extent
        ensures { result ≡ alone label }
    {
        let instructions = match label {
            Label::Num(_)
            | Label::Truth(_)
            | Label::Var { .. }
            | Label::Binop(_)
            | Label::Eq
            | Label::App => 1,
            Label::Lam { .. } | Label::Let { .. } => 2,
            Label::If => 5,
        };
        Extent {
            records: 1,
            instructions,
        }
    }
}

/// The scratch of translation: what was measured of each record, the last record's first. It stands beside the listing, since
/// that is the caller's.
#[derive(Drop)]
pub struct Translator {
    extents: BoundedVec<Extent, MOST_RECORDS>,
}

impl Translator {
    /// Reserves the scratch.
    pub fn new(heap: Global) -> Result<Translator, AllocError> {
        let extents = BoundedVec::new(heap)?;
        Ok(Translator { extents })
    }

    /// What was measured of the record at a place behind those not yet measured.
    fn measured_at(&self, place: u16) -> Extent
        ensures { result ≡ measured_at (reverse self.now.extents) place }
    {
        self.extents
            .nth_last(usize::from(place))
            .unwrap_or_default()
    }

    /// With the child that begins behind the records counted so far.
    fn with_child(&self, counted: Extent) -> Extent
        ensures { result ≡ with_child (reverse self.now.extents) counted }
    {
        counted.and(self.measured_at(counted.records.saturating_sub(1)))
    }

    /// A record with its children, where the records behind it are measured.
    fn whole(&self, label: Label) -> Extent
        ensures { result ≡ whole (reverse self.now.extents) label }
    {
        let alone = Extent::alone(label);
        match label {
            Label::Num(_) | Label::Truth(_) | Label::Var { .. } => alone,
            Label::Lam { .. } => self.with_child(alone),
            Label::Binop(_) | Label::Eq | Label::App | Label::Let { .. } => self.with_child(
                self.with_child(alone),
            ),
            Label::If => self.with_child(self.with_child(self.with_child(alone))),
        }
    }

    /// The extent of the term that begins with a record, where the records behind it are measured.
    fn extent(&self, node: &Node) -> Extent
        ensures { result ≡ measure_of (reverse self.now.extents) (label_of node.now) }
    {
        Label::try_from(*node).map_or(Extent::default(), |label| self.whole(label))
    }

    /// Measures every term of a listing, from the last record to the first.
    fn measure(&mut self, listing: &[Node])
        requires { length listing.now ≤ most_records }
        ensures { Measured listing.now (reverse self.new.extents) }
    {
        self.extents.clear();
        for node in listing.iter().rev() {
            let extent = self.extent(node);
            self.extents.push(extent);
        }
    }

    /// Translates a listing: the code is that of its term, if it is the listing of one.
    // The code is the caller's vector, of which this promises that it keeps its capacity; so emission speaks of capacities, which
    // a BoundedVec would not show. That the listing is short is asked here and in `measure` as in check.rt, which says why.
    pub fn translate(&mut self, listing: &[Node], code: &mut Vec<Instruction>)
        requires long { length listing.now ≤ most_records }
        requires room { most_instructions ≤ vec_capacity code.old }
        ensures capacity { vec_capacity code.new ≡ vec_capacity code.old }
        ensures code { (t : Term) → listing_of t ≡ listing.now → code.new.items ≡ translate t }
    {
        self.measure(listing);
        code.clear();
        let measured = MeasuredListing {
            listing,
            translator: self,
        };
        measured.emit_at(0, code);
        put(code, Instruction::End);
    }
}

/// A listing, with every term measured.
#[derive(Clone, Copy)]
struct MeasuredListing<'a> {
    listing: &'a [Node],
    translator: &'a Translator,
    ghost long: { length listing.now ≤ most_records },
    ghost measured: { Measured listing.now (reverse translator.now.extents) },
}

impl MeasuredListing<'_> {
    /// The place behind the term at a place.
    fn past(&self, place: u16) -> u16
        ensures { result ≡ min (place + (measured_at (reverse self.now.translator.now.extents) place).records) max_u16 }
    {
        place.saturating_add(self.translator.measured_at(place).records)
    }

    /// The length of the term at a place as a body, its RETURN included.
    fn body_length(&self, place: u16) -> u16
        ensures { result ≡ min ((measured_at (reverse self.now.translator.now.extents) place).instructions + 1) max_u16 }
    {
        let extent = self.translator.measured_at(place);
        extent.instructions.saturating_add(1)
    }

    /// Adds the code of the term at a place.
    // The code is passed on beside the listing: it is the one thing that changes.
    #[cycle(emission)]
    fn emit_at(&self, place: u16, code: &mut Vec<Instruction>)
        ensures capacity { vec_capacity code.new ≡ vec_capacity code.old }
        ensures code { Emits self.now.listing.now place code.old code.new }
    {
        let Some(node) = self.listing.get(usize::from(place)) else {
            return;
        };
        let Ok(label) = Label::try_from(*node) else {
            return;
        };
        let first = place + 1;
        match label {
            Label::Num(number) => put(code, Instruction::PushNum(number)),
            Label::Truth(truth) => put(code, Instruction::PushTruth(truth)),
            Label::Var { name, between } => put(code, Instruction::Access { name, between }),
            Label::Binop(op) => self.emit_pair(first, Instruction::Operate { op, place }, code),
            Label::Eq => self.emit_pair(first, Instruction::Compare { place }, code),
            Label::App => self.emit_pair(first, Instruction::Apply { place }, code),
            Label::Lam { name } => {
                let length = self.body_length(first);
                self.emit_body(first, Instruction::PushClosure { name, length }, code);
            }
            Label::Let { name } => {
                self.emit_at(first, code);
                put(code, Instruction::Bind { name });
                self.emit_at(self.past(first), code);
                put(code, Instruction::Unbind);
            }
            Label::If => {
                let second = self.past(first);
                let third = self.past(second);
                let length = self.body_length(second);
                self.emit_body(second, Instruction::PushThunk { length }, code);
                let length = self.body_length(third);
                self.emit_body(third, Instruction::PushThunk { length }, code);
                self.emit_at(first, code);
                put(code, Instruction::Choose { place });
            }
        }
    }

    /// Adds the code of two terms, the first at a place and the other behind it, and an instruction for both.
    #[cycle(emission)]
    fn emit_pair(&self, first: u16, last: Instruction, code: &mut Vec<Instruction>)
        ensures capacity { vec_capacity code.new ≡ vec_capacity code.old }
        ensures code { EmitsPair self.now.listing.now first last code.old code.new }
    {
        self.emit_at(first, code);
        self.emit_at(self.past(first), code);
        put(code, last);
    }

    /// Adds the code of the term at a place as a body, behind the instruction that opens it.
    #[cycle(emission)]
    fn emit_body(&self, place: u16, opening: Instruction, code: &mut Vec<Instruction>)
        ensures capacity { vec_capacity code.new ≡ vec_capacity code.old }
        ensures code { EmitsBody self.now.listing.now place opening code.old code.new }
    {
        put(code, opening);
        self.emit_at(place, code);
        put(code, Instruction::Return);
    }
}

/// Adds an instruction where there is room.
fn put(code: &mut Vec<Instruction>, instruction: Instruction)
    ensures { Grows code.old code.new 1 (λ k. instruction ∷ k) }
{
    if code.len() < code.capacity() {
        code.push_reserved(instruction);
    }
}
