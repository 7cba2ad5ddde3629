//! Whole: the number domain of whole amounts, exact in a range.
#![tactic(auto)]

pub mod laws;

ghost use Rattle.std.specs.Prelude.{◌≡◌, if◌then◌else◌, Some, None, int_div};
ghost use Rattle.std.specs.Int.{saturate_to_bits};
ghost use Rattle.domain.specs.Bottom.{divides_by_zero};
ghost use Rattle.whole.specs.Numbers.{answer, code_of, exact, in_range, is_zero};
ghost use Rattle.whole.specs.Whole.{whole};

use domain::{BOTTOM_HEIGHT, Cause, Domain, Fault, Op};

/// The largest lawful number; the smallest is as far below zero.
pub const LIMIT: i64 = 1_000_000_000_000_000;

/// Whole numbers from -10^15 to 10^15. The code is the two's complement of the number; results are exact, and Div
/// drops the fraction toward zero.
#[derive(Clone, Copy)]
pub struct Whole;

fn is_in_range(x: i64) -> bool
    ensures { result ≡ in_range x }
{
    (-LIMIT..=LIMIT).contains(&x)
}

/// The code of a number, where it is in the range.
fn code_of(z: i64) -> Option<u64>
    ensures { result ≡ (if in_range z then Some (code_of z) else None) }
{
    is_in_range(z).then_some(z.cast_unsigned())
}

// Here and below two amounts stand in a row, as an operation has them: a struct would be taken apart in each function.

/// The quotient with its fraction dropped, or nothing at a zero divisor.
fn quotient(x: i64, y: i64) -> Option<i64>
    ensures { result ≡ (if is_zero y then None else Some (saturate_to_bits 63 (int_div x y))) }
{
    // Written out by the divisor's sign and zero, the form that DECISIONS.md lists.
    match y {
        0 => None,
        -1 => Some(0i64.saturating_sub(x)),
        _ => Some(x / y),
    }
}

/// The exact result, or nothing at a zero divisor. A result past 64 bits is saturated, which is past the range too.
fn saturated_result(op: Op, x: i64, y: i64) -> Option<i64>
    ensures { result ≡ (if divides_by_zero op (is_zero y) then None else Some (saturate_to_bits 63 (exact op x y))) }
{
    match op {
        Op::Add => Some(x.saturating_add(y)),
        Op::Sub => Some(x.saturating_sub(y)),
        Op::Mul => Some(x.saturating_mul(y)),
        Op::Div => quotient(x, y),
    }
}

fn work_out(op: Op, x: i64, y: i64) -> Result<u64, Fault>
    ensures { result ≡ answer op x y }
{
    let z = saturated_result(op, x, y).ok_or(Fault::new(Cause::ZeroDivisor, BOTTOM_HEIGHT))?;
    code_of(z).ok_or(Fault::new(Cause::UnlawfulResult, BOTTOM_HEIGHT))
}

// Sameness by code and the bottom's height are as in Binary64: a shared function would be as long as what it stands for.
impl Domain for Whole {
    ghost meaning = { λ _. whole };

    fn is_lawful(&self, code: u64) -> bool {
        is_in_range(code.cast_signed())
    }

    fn apply(&self, op: Op, left: u64, right: u64) -> Result<u64, Fault> {
        work_out(op, left.cast_signed(), right.cast_signed())
    }

    fn is_same(&self, left: u64, right: u64) -> bool {
        left == right
    }

    fn height(&self) -> u8 {
        BOTTOM_HEIGHT
    }
}
