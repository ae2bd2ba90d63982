//! Comparison of integers.
ghost use Rattle.std.specs.Prelude.{◌≡◌, ◌<◌, ◌≤◌, ◌^◌};
ghost use Rattle.lto_bits.specs.Comparison.{compared};

use crate::operator::Predicate;
use crate::word::signed;

/// Whether the condition holds of two numbers of `w` bits, which is 1 to 64; both are below `2^w`
/// (LLVM Language Reference, "`icmp` Instruction").
#[tactic(auto, unfolding(crate::specs::Comparison::compared))]
pub fn compare(predicate: Predicate, w: u8, a: u64, b: u64) -> bool
    requires some { 1 ≤ w }
    requires within { w ≤ 64 }
    requires left { a < 2 ^ w }
    requires right { b < 2 ^ w }
    ensures { result ≡ compared predicate w a b }
{
    match predicate {
        Predicate::Eq => a == b,
        Predicate::Ne => a != b,
        Predicate::Ugt => a > b,
        Predicate::Uge => a >= b,
        Predicate::Ult => a < b,
        Predicate::Ule => a <= b,
        Predicate::Sgt => signed(w, a) > signed(w, b),
        Predicate::Sge => signed(w, a) >= signed(w, b),
        Predicate::Slt => signed(w, a) < signed(w, b),
        Predicate::Sle => signed(w, a) <= signed(w, b),
    }
}
