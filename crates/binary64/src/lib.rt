//! Binary64: the number domain of rates, each operation rounded once.
#![tactic(auto)]

pub mod laws;

ghost use Rattle.std.specs.Prelude.{◌≡◌, IfSome, if◌then◌else◌, Some, None};
ghost use Rattle.std.specs.Float.{float_is_finite};
ghost use Rattle.binary64.specs.Rates.{answer, code_of, number_of};
ghost use Rattle.binary64.specs.Binary.{binary};

use domain::{BOTTOM_HEIGHT, Cause, Domain, Fault, Op};

/// The finite numbers of IEEE 754's binary64. The code is the bit pattern; each operation rounds once, to nearest,
/// ties to even.
#[derive(Clone, Copy)]
pub struct Binary64;

/// The bit pattern but for the sign.
const WITHOUT_SIGN: u64 = 0x8000_0000_0000_0000;

/// The bit pattern of infinity: those at and above it, but for the sign, are no numbers.
const INFINITY: u64 = 0x7ff0_0000_0000_0000;

/// Whether the number of a code is finite.
fn is_finite(code: u64) -> bool
    ensures { result ≡ float_is_finite (number_of code) }
{
    code % WITHOUT_SIGN < INFINITY
}

/// The number of a code, where it is finite. Written back, it gives the same code.
pub fn number_of(code: u64) -> Option<f64>
    ensures value { result ≡ (if float_is_finite (number_of code) then Some (number_of code) else None) }
    ensures back { IfSome result (λ x. code_of x ≡ code) }
{
    is_finite(code).then(|| f64::from_bits(code))
}

/// The code of a number, where it is finite.
pub fn code_of(x: f64) -> Option<u64>
    ensures { result ≡ (if float_is_finite x then Some (code_of x) else None) }
{
    x.is_finite().then(|| x.to_bits())
}

fn work_out(op: Op, x: f64, y: f64) -> Result<u64, Fault>
    ensures { result ≡ answer op x y }
{
    let z = match op {
        Op::Add => x + y,
        Op::Sub => x - y,
        Op::Mul => x * y,
        Op::Div if y == 0.0 => return Err(Fault::new(Cause::ZeroDivisor, BOTTOM_HEIGHT)),
        Op::Div => x / y,
    };
    code_of(z).ok_or(Fault::new(Cause::UnlawfulResult, BOTTOM_HEIGHT))
}

// Sameness by code and the bottom's height are as in Whole: a shared function would be as long as what it stands for.
impl Domain for Binary64 {
    ghost meaning = { λ _. binary };

    fn is_lawful(&self, code: u64) -> bool {
        is_finite(code)
    }

    /// An operand that is no number is answered as a result that is none.
    fn apply(&self, op: Op, left: u64, right: u64) -> Result<u64, Fault> {
        let (Some(x), Some(y)) = (number_of(left), number_of(right)) else {
            return Err(Fault::new(Cause::UnlawfulResult, BOTTOM_HEIGHT));
        };
        work_out(op, x, y)
    }

    fn is_same(&self, left: u64, right: u64) -> bool {
        left == right
    }

    fn height(&self) -> u8 {
        BOTTOM_HEIGHT
    }
}
