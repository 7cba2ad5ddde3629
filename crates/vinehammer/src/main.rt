//! Vinehammer: works out an accrued coupon over both number domains, and shows a fault.
#![tactic(auto)]

mod accrual;
mod formulas;
mod leg_and_stub;
mod text;

use accrual::{Accrued, Coupon, accrue, accrue_whole};
use binary64::{Binary64, code_of, number_of};
use domain::Domain;
use domain::screen::Screen;
use formulas::print_formula;
use std::{fmt, io};
use text::Cents;
use whole::Whole;

/// Basis points in one: the scale of a rate in whole numbers.
const BASIS_POINTS: u16 = 10_000;

/// A coupon's terms as a desk writes them.
#[derive(Clone, Copy)]
struct Terms {
    face_cents: u32,
    rate_points: u16,
    days: u16,
    year_days: u16,
}

/// 1,000,000.00 at 5.25 percent, 91 days of 360.
const TERMS: Terms = Terms {
    face_cents: 100_000_000,
    rate_points: 525,
    days: 91,
    year_days: 360,
};

impl Terms {
    fn in_whole_cents(&self) -> Coupon {
        Coupon {
            face: u64::from(self.face_cents),
            rate: u64::from(self.rate_points),
            days: u64::from(self.days),
            basis: u64::from(self.year_days) * u64::from(BASIS_POINTS),
        }
    }

    /// The same coupon on a face of one, so that what accrues is a rate.
    fn as_a_rate(&self) -> Option<Coupon> {
        Some(Coupon {
            face: code_of(1.0)?,
            rate: code_of(f64::from(self.rate_points) / f64::from(BASIS_POINTS))?,
            days: code_of(f64::from(self.days))?,
            basis: code_of(f64::from(self.year_days))?,
        })
    }
}

impl fmt::Display for Terms {
    fn fmt<W: fmt::Write>(&self, f: &mut fmt::Formatter<W>) -> fmt::Result {
        let face = Cents(i64::from(self.face_cents));
        let rate = self.rate_points;
        let days = self.days;
        let year = self.year_days;
        write!(f, "{face} at {rate} basis points for {days} of {year} days")
    }
}

fn print_whole(rt: &HostRuntime, coupon: &Coupon) -> io::Result<()> {
    let height = Screen { below: Whole }.height();
    let basis = coupon.basis;
    println!(rt; "in whole cents, Screen over Whole (height {height}):")?;
    match accrue_whole(coupon) {
        Ok(Accrued { amount, dropped }) => {
            let paid = Cents(amount.cast_signed());
            println!(rt; "  accrued {paid}, and {dropped}/{basis} of a cent dropped")
        }
        Err(fault) => println!(rt; "  no answer: {fault}"),
    }
}

fn print_rate(rt: &HostRuntime, coupon: &Coupon) -> io::Result<()> {
    let desk = Screen { below: Binary64 };
    let height = desk.height();
    println!(rt; "as a rate, Screen over Binary64 (height {height}):")?;
    match accrue(&desk, coupon) {
        Ok(Accrued { amount, dropped: _ }) => {
            if let Some(rate) = number_of(amount) {
                println!(rt; "  accrued {rate} of the face, code {amount:016x}")?;
            }
            Ok(())
        }
        Err(fault) => println!(rt; "  no answer: {fault}"),
    }
}

fn main(rt: HostRuntime) -> io::Result<()> {
    println!(rt; "coupon on {TERMS}")?;
    let coupon = TERMS.in_whole_cents();
    print_whole(&rt, &coupon)?;
    if let Some(rates) = TERMS.as_a_rate() {
        print_rate(&rt, &rates)?;
    }
    println!(rt; "the same with a year of no days:")?;
    print_whole(&rt, &Coupon { basis: 0, ..coupon })?;
    print_formula(&rt)
}
