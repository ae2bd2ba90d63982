//! Casts between widths.
ghost use Rattle.std.specs.Prelude.{◌≡◌, ◌<◌, ◌≤◌, ◌^◌};
ghost use Rattle.lto_bits.specs.Cast.{widened, narrowed};

use crate::word::{low_bits, signed as signed_value, wrap};

/// A number of `from` bits at `to` bits, which keeps its signed value where `signed`, as `sext`
/// does, and else its unsigned value, as `zext` does (LLVM Language Reference, "Conversion
/// Operations"). Widths are 1 to 64, `from` is at most `to`, and the number is below `2^from`.
pub fn widen(signed: bool, from: u8, to: u8, a: u64) -> u64
    requires some { 1 ≤ from }
    requires wider { from ≤ to }
    requires within { to ≤ 64 }
    requires below { a < 2 ^ from }
    ensures { result ≡ widened signed from to a }
{
    if signed {
        wrap(to, signed_value(from, a))
    } else {
        a
    }
}

/// The low `to` bits of a number, 1 to 64 of them, as `trunc` keeps (LLVM Language Reference,
/// "Conversion Operations").
pub fn narrow(to: u8, a: u64) -> u64
    requires some { 1 ≤ to }
    requires within { to ≤ 64 }
    ensures { result ≡ narrowed to a }
{
    low_bits(to, a)
}
