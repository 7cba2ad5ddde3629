//! Accrued interest over any number domain.
ghost use Rattle.std.specs.Prelude.{◌≡◌, IfOk};
ghost use Rattle.domain.specs.Screen.{screen};
ghost use Rattle.whole.specs.Whole.{whole};
ghost use Rattle.vinehammer.specs.Accrual.{Exact, accrued_by, split};

use domain::screen::Screen;
use domain::{Domain, Fault, Op};
use whole::Whole;

/// The terms of a coupon, as codes of one domain. The basis is the days of a year, times the scale of the rate.
#[derive(Clone, Copy)]
pub struct Coupon {
    pub face: u64,
    pub rate: u64,
    pub days: u64,
    pub basis: u64,
}

/// What has accrued, and what the division dropped.
#[derive(Clone, Copy)]
pub struct Accrued {
    pub amount: u64,
    pub dropped: u64,
}

/// Divides a total by the basis, and works out what the division drops.
pub fn divide<D: Domain>(desk: &Screen<D>, total: u64, basis: u64) -> Result<Accrued, Fault>
    ensures { result ≡ split (screen (D.Domain.meaning desk.now.below)) total basis }
{
    let amount = desk.apply(Op::Div, total, basis)?;
    let back = desk.apply(Op::Mul, amount, basis)?;
    let dropped = desk.apply(Op::Sub, total, back)?;
    Ok(Accrued { amount, dropped })
}

/// Works out face × rate × days ÷ basis from left to right. A fault on the way is the answer, as it came.
pub fn accrue<D: Domain>(desk: &Screen<D>, coupon: &Coupon) -> Result<Accrued, Fault>
    ensures { result ≡ accrued_by (screen (D.Domain.meaning desk.now.below)) coupon.now }
{
    let yearly = desk.apply(Op::Mul, coupon.face, coupon.rate)?;
    let total = desk.apply(Op::Mul, yearly, coupon.days)?;
    divide(desk, total, coupon.basis)
}

/// The same in whole numbers, where it is exact.
pub fn accrue_whole(coupon: &Coupon) -> Result<Accrued, Fault>
    ensures steps { result ≡ accrued_by (screen whole) coupon.now }
    ensures exact { IfOk result (λ a. Exact coupon.now a) }
{
    accrue(&Screen { below: Whole }, coupon)
}
