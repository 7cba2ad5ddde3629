//! How amounts are written for people.
use std::fmt;

/// An amount of whole cents, written with its units first. A number has a Display of its own, so an amount is a type.
#[derive(Clone, Copy)]
pub struct Cents(pub i64);

impl fmt::Display for Cents {
    fn fmt<W: fmt::Write>(&self, f: &mut fmt::Formatter<W>) -> fmt::Result {
        let size = self.0.unsigned_abs();
        let sign = if self.0 < 0 { "-" } else { "" };
        let units = size / 100;
        let cents = size % 100;
        write!(f, "{sign}{units}.{cents:02}")
    }
}
