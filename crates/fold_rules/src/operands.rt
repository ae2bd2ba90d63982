//! What the rows ask of operands.
ghost use Rattle.std.specs.Prelude.{◌≡◌, ◌<◌, ◌≤◌, ◌^◌, ◌-◌, IfSome, nat_eq};
ghost use Rattle.std.specs.Option.{option_eq};
ghost use Rattle.ir_tree.specs.Symbols.{symbol_eq};
ghost use Rattle.ir_meaning.specs.Execute.{reg_eq};
ghost use Rattle.ir_meaning.specs.Table.{is_number, is_poison, number_of, same};

use ir_tree::{Operand, Reg, Symbol};
use lto_bits::narrow;

/// Whether an operand is poison.
pub(crate) fn is_poison(operand: &Operand) -> bool
    ensures { result ≡ is_poison operand.now }
{
    matches!(operand, Operand::Poison(_))
}

/// Whether an operand is this number, of any width.
pub(crate) fn is_number(number: u64, operand: &Operand) -> bool
    ensures { result ≡ is_number number operand.now }
{
    match operand {
        Operand::Number { bits, .. } => *bits == number,
        _ => false,
    }
}

/// The number of `width` bits that an operand is, if it is one. Widths are 1 to 64.
pub(crate) fn number_of(width: u8, operand: &Operand) -> Option<u64>
    requires some { 1 ≤ width }
    requires within { width ≤ 64 }
    ensures number { result ≡ number_of width operand.now }
    ensures below { IfSome result (λ n. n < 2 ^ width) }
{
    if let Operand::Number { bits, .. } = operand {
        if narrow(width, *bits) == *bits {
            return Some(*bits);
        }
    }
    None
}

/// Whether an operand is the number of `width` bits that are all set. Widths are 1 to 64.
pub(crate) fn is_all_ones(width: u8, operand: &Operand) -> bool
    requires some { 1 ≤ width }
    requires within { width ≤ 64 }
    ensures { result ≡ is_number (2 ^ width - 1) operand.now }
{
    is_number(narrow(width, u64::MAX), operand)
}

fn is_same_type(left: Reg, right: Reg) -> bool
    ensures { result ≡ reg_eq left right }
{
    match (left, right) {
        (Reg::Int(v), Reg::Int(w)) => v == w,
        (Reg::Ptr, Reg::Ptr) => true,
        _ => false,
    }
}

fn is_same_home(left: Option<u32>, right: Option<u32>) -> bool
    ensures { result ≡ option_eq nat_eq left right }
{
    match (left, right) {
        (None, None) => true,
        (Some(m), Some(n)) => m == n,
        _ => false,
    }
}

/// Whether two symbols are one.
pub(crate) fn is_same_symbol(left: &Symbol, right: &Symbol) -> bool
    ensures { result ≡ symbol_eq left.now right.now }
{
    is_same_home(left.home, right.home) && left.name.equals(right.name.as_slice())
}

/// Whether two operands are one: the same local, constant of one width, or symbol at one offset.
pub fn is_same(left: &Operand, right: &Operand) -> bool
    ensures { result ≡ same left.now right.now }
{
    match (left, right) {
        (Operand::Local(x), Operand::Local(y)) => x == y,
        (
            Operand::Number { width, bits },
            Operand::Number {
                width: other,
                bits: own,
            },
        ) => width == other && bits == own,
        (Operand::Null, Operand::Null) => true,
        (Operand::Poison(reg), Operand::Poison(other)) => is_same_type(*reg, *other),
        (
            Operand::Symbol { symbol, offset },
            Operand::Symbol {
                symbol: other,
                offset: own,
            },
        ) => is_same_symbol(symbol, other) && offset == own,
        _ => false,
    }
}
