//! Sums, differences and products, which wrap, and their overflow flags.
ghost use Rattle.std.specs.Prelude.{◌≡◌, ◌<◌, ◌≤◌, ◌+◌, ◌*◌, ◌^◌, ◌+ℤ◌, ◌-ℤ◌, ◌*ℤ◌, nat_lt, not, ◌||◌};
ghost use Rattle.lto_bits.specs.Operation.{plain};
ghost use Rattle.lto_bits.specs.Word.{signed as signed_value, fits_signed as signed_fits};
ghost use Rattle.lto_bits.specs.declared.operator.BinaryOp.TheVariants.{Add, Sub, Mul};

use crate::answer::{Answer, value_if};
use crate::operator::Flags;
use crate::word::{fits_signed, fits_unsigned, low_bits, signed};

// `add`.
#[tactic(auto, unfolding(crate::specs::Operation::arithmetic))]
pub fn add(flags: Flags, w: u8, a: u64, b: u64) -> Answer
    requires some { 1 ≤ w }
    requires within { w ≤ 64 }
    requires left { a < 2 ^ w }
    requires right { b < 2 ^ w }
    ensures { result ≡ plain Add flags w a b }
{
    let unsigned = sum_fits_unsigned(flags, w, a, b);
    let signed = sum_fits_signed(flags, w, a, b);
    value_if(unsigned & signed, low_bits(w, a.wrapping_add(b)))
}

// `sub`.
#[tactic(auto, unfolding(crate::specs::Operation::arithmetic))]
pub fn sub(flags: Flags, w: u8, a: u64, b: u64) -> Answer
    requires some { 1 ≤ w }
    requires within { w ≤ 64 }
    requires left { a < 2 ^ w }
    requires right { b < 2 ^ w }
    ensures { result ≡ plain Sub flags w a b }
{
    let unsigned = !flags.nuw | (b <= a);
    let signed = difference_fits_signed(flags, w, a, b);
    value_if(unsigned & signed, low_bits(w, a.wrapping_sub(b)))
}

// `mul`.
#[tactic(auto, unfolding(crate::specs::Operation::arithmetic))]
pub fn mul(flags: Flags, w: u8, a: u64, b: u64) -> Answer
    requires some { 1 ≤ w }
    requires within { w ≤ 64 }
    requires left { a < 2 ^ w }
    requires right { b < 2 ^ w }
    ensures { result ≡ plain Mul flags w a b }
{
    let unsigned = product_fits_unsigned(flags, w, a, b);
    let signed = product_fits_signed(flags, w, a, b);
    value_if(unsigned & signed, low_bits(w, a.wrapping_mul(b)))
}

// Whether `nuw` allows this sum.
fn sum_fits_unsigned(flags: Flags, w: u8, a: u64, b: u64) -> bool
    requires some { 1 ≤ w }
    requires within { w ≤ 64 }
    ensures { result ≡ (not flags.nuw || nat_lt (a + b) (2 ^ w)) }
{
    !flags.nuw || fits_unsigned(w, u128::from(a) + u128::from(b))
}

// Whether `nsw` allows this sum.
fn sum_fits_signed(flags: Flags, w: u8, a: u64, b: u64) -> bool
    requires some { 1 ≤ w }
    requires within { w ≤ 64 }
    requires left { a < 2 ^ w }
    requires right { b < 2 ^ w }
    ensures { result ≡ (not flags.nsw || signed_fits w (signed_value w a +ℤ signed_value w b)) }
{
    !flags.nsw || fits_signed(w, i128::from(signed(w, a)) + i128::from(signed(w, b)))
}

// Whether `nsw` allows this difference.
fn difference_fits_signed(flags: Flags, w: u8, a: u64, b: u64) -> bool
    requires some { 1 ≤ w }
    requires within { w ≤ 64 }
    requires left { a < 2 ^ w }
    requires right { b < 2 ^ w }
    ensures { result ≡ (not flags.nsw || signed_fits w (signed_value w a -ℤ signed_value w b)) }
{
    !flags.nsw || fits_signed(w, i128::from(signed(w, a)) - i128::from(signed(w, b)))
}

// Whether `nuw` allows this product.
fn product_fits_unsigned(flags: Flags, w: u8, a: u64, b: u64) -> bool
    requires some { 1 ≤ w }
    requires within { w ≤ 64 }
    ensures { result ≡ (not flags.nuw || nat_lt (a * b) (2 ^ w)) }
{
    !flags.nuw || fits_unsigned(w, u128::from(a) * u128::from(b))
}

// Whether `nsw` allows this product.
fn product_fits_signed(flags: Flags, w: u8, a: u64, b: u64) -> bool
    requires some { 1 ≤ w }
    requires within { w ≤ 64 }
    requires left { a < 2 ^ w }
    requires right { b < 2 ^ w }
    ensures { result ≡ (not flags.nsw || signed_fits w (signed_value w a *ℤ signed_value w b)) }
{
    !flags.nsw || fits_signed(w, i128::from(signed(w, a)) * i128::from(signed(w, b)))
}
