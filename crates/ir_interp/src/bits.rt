//! Numbers of a width.
ghost use Rattle.std.specs.Prelude.{◌≡◌, ◌^◌, nat_lt, List};
ghost use Rattle.ir_tree.specs.declared.operand.Symbol.{Symbol};
ghost use Rattle.ir_meaning.specs.Operate.{bits_of};
ghost use Rattle.ir_machine.specs.Meant.{meant};

use ir_machine::Scalar;

/// Whether a number has no more than so many bits.
fn fits(width: u8, number: u64) -> bool
    ensures { result ≡ nat_lt number (2 ^ width) }
{
    width >= 64 || number >> width == 0
}

/// The number of this width that a value is.
pub(crate) fn bits_of(width: u8, value: Scalar) -> Option<u64>
    ensures { (names : List Symbol) → result ≡ bits_of width (meant names value) }
{
    match value {
        Scalar::Number(number) if fits(width, number) => Some(number),
        _ => None,
    }
}
