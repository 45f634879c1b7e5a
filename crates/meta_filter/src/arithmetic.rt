//! Arithmetic on whole numbers, as far as they fit in 128 bits with a sign.

ghost use Rattle.std.specs.Prelude.{◌≡◌, ◌<◌, unsigned_abs};
ghost use Rattle.meta_filter.specs.Arithmetic as spec;

use rule_form::{ArithOp, CompareOp};

/// The number of this size, if it fits.
pub fn signed(negative: bool, size: u128) -> Option<i128>
    ensures { result ≡ spec.within (spec.signed negative size) }
{
    if size < 0x8000_0000_0000_0000_0000_0000_0000_0000 {
        let number = size as i128;
        return Some(if negative { -number } else { number });
    }
    if negative && size == 0x8000_0000_0000_0000_0000_0000_0000_0000 {
        return Some(i128::MIN);
    }
    None
}

/// The quotient, rounded up.
fn quotient_up(n: u128, d: u128) -> u128
    requires { 0 < d }
    ensures { result ≡ spec.quotient_up n d }
{
    if n % d == 0 { n / d } else { n / d + 1 }
}

/// The quotient, rounded down.
#[tactic(auto, using(crate::proofs::Floors::floor_is))]
fn quotient(x: i128, y: i128) -> Option<i128>
    requires { 0 < unsigned_abs y }
    ensures value { result ≡ spec.within (spec.floor_quotient x y) }
    ensures floor { spec.IsFloor x y (spec.floor_quotient x y) }
{
    if (x < 0) != (y < 0) {
        signed(true, quotient_up(x.unsigned_abs(), y.unsigned_abs()))
    } else {
        signed(false, x.unsigned_abs() / y.unsigned_abs())
    }
}

/// What the quotient that is rounded down leaves.
#[tactic(auto, using(crate::proofs::Remainders::apart))]
fn remainder(x: i128, y: i128) -> Option<i128>
    requires { 0 < unsigned_abs y }
    ensures { result ≡ spec.within (spec.floor_remainder x y) }
{
    let left = x.unsigned_abs() % y.unsigned_abs();
    if left == 0 {
        return Some(0);
    }
    if (x < 0) != (y < 0) {
        signed(y < 0, y.unsigned_abs() - left)
    } else {
        signed(y < 0, left)
    }
}

/// What an operation gives, unless it divides by 0 or doesn't fit.
pub fn computed(op: ArithOp, x: i128, y: i128) -> Option<i128>
    ensures { result ≡ spec.computed op x y }
{
    match op {
        ArithOp::Plus => x.checked_add(y),
        ArithOp::Minus => x.checked_sub(y),
        ArithOp::Times => x.checked_mul(y),
        ArithOp::Divide => { if y == 0 { None } else { quotient(x, y) } }
        ArithOp::Remainder => { if y == 0 { None } else { remainder(x, y) } }
    }
}

/// Whether two numbers compare so.
pub fn compared(op: CompareOp, x: i128, y: i128) -> bool
    ensures { result ≡ spec.compared op x y }
{
    match op {
        CompareOp::Less => x < y,
        CompareOp::LessEqual => x <= y,
        CompareOp::Greater => x > y,
        CompareOp::GreaterEqual => x >= y,
        CompareOp::Equal => x == y,
        CompareOp::NotEqual => x != y,
    }
}
