//! Shifts, poison from the width on, and their flags.
ghost use Rattle.std.specs.Prelude.{◌≡◌, ◌<◌, ◌≤◌, ◌*◌, ◌%◌, ◌^◌, ◌==◌, ◌*ℤ◌, pos, nat_lt, not, ◌||◌};
ghost use Rattle.lto_bits.specs.Operation.{plain};
ghost use Rattle.lto_bits.specs.Word.{signed as signed_value, fits_signed as signed_fits, ashr_of};
ghost use Rattle.lto_bits.specs.declared.operator.BinaryOp.TheVariants.{Shl, Lshr, Ashr};

use crate::answer::{Answer, value_if};
use crate::operator::Flags;
use crate::word::{fits_signed, greatest, low_bits, sign_bit, signed};

// `shl`.
#[tactic(auto, unfolding(crate::specs::Operation::arithmetic))]
pub fn shl(flags: Flags, w: u8, a: u64, b: u64) -> Answer
    requires some { 1 ≤ w }
    requires within { w ≤ 64 }
    requires left { a < 2 ^ w }
    ensures { result ≡ plain Shl flags w a b }
{
    if b >= u64::from(w) {
        return Answer::Poison;
    }
    let unsigned = shift_fits_unsigned(flags, w, a, b);
    let signed = shift_fits_signed(flags, w, a, b);
    value_if(unsigned & signed, low_bits(w, a << b))
}

// `lshr`.
#[tactic(auto, unfolding(crate::specs::Operation::arithmetic))]
pub fn lshr(flags: Flags, w: u8, a: u64, b: u64) -> Answer
    requires some { 1 ≤ w }
    requires within { w ≤ 64 }
    ensures { result ≡ plain Lshr flags w a b }
{
    if b >= u64::from(w) {
        return Answer::Poison;
    }
    value_if(loses_no_bits(flags, a, b), a >> b)
}

// `ashr`.
#[tactic(auto, unfolding(crate::specs::Operation::arithmetic))]
pub fn ashr(flags: Flags, w: u8, a: u64, b: u64) -> Answer
    requires some { 1 ≤ w }
    requires within { w ≤ 64 }
    requires left { a < 2 ^ w }
    ensures { result ≡ plain Ashr flags w a b }
{
    if b >= u64::from(w) {
        return Answer::Poison;
    }
    value_if(loses_no_bits(flags, a, b), sign_filled(w, a, b))
}

// Whether `nuw` allows this left shift.
fn shift_fits_unsigned(flags: Flags, w: u8, a: u64, b: u64) -> bool
    requires some { 1 ≤ w }
    requires within { w ≤ 64 }
    requires shift { b < w }
    ensures { result ≡ (not flags.nuw || nat_lt (a * 2 ^ b) (2 ^ w)) }
{
    !flags.nuw || a <= greatest(w) >> b
}

// Whether `nsw` allows this left shift.
fn shift_fits_signed(flags: Flags, w: u8, a: u64, b: u64) -> bool
    requires some { 1 ≤ w }
    requires within { w ≤ 64 }
    requires left { a < 2 ^ w }
    requires shift { b < w }
    ensures { result ≡ (not flags.nsw || signed_fits w (signed_value w a *ℤ pos (2 ^ b))) }
{
    !flags.nsw || fits_signed(w, i128::from(signed(w, a)) * i128::from(1u64 << b))
}

// Whether `exact` allows this right shift: the low `b` bits are zero.
fn loses_no_bits(flags: Flags, a: u64, b: u64) -> bool
    requires shift { b < 64 }
    ensures { result ≡ (not flags.exact || (a % 2 ^ b == 0)) }
{
    !flags.exact || a & ((1 << b) - 1) == 0
}

// A right shift that copies the sign bit: a negative number's complement is shifted, and
// complemented again.
fn sign_filled(w: u8, a: u64, b: u64) -> u64
    requires some { 1 ≤ w }
    requires within { w ≤ 64 }
    requires left { a < 2 ^ w }
    requires shift { b < w }
    ensures { result ≡ ashr_of w a b }
{
    let ones = greatest(w);
    if a < sign_bit(w) {
        a >> b
    } else {
        ones - ((ones - a) >> b)
    }
}
