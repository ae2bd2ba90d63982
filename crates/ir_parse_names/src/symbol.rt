//! The names of symbols (LangRef, "Identifiers").
ghost use Rattle.std.specs.Prelude.{◌≡◌, IfOk};
ghost use Rattle.ir_parse_names.specs.Symbols.{is_padded, trimmed, symbol_name, symbol_of};

use crate::number::is_numeral;
use ir_parse_parts::Name;
use ir_tree::{Symbol, Text};
use std::alloc::{AllocError, Global};

/// Whether a zero stands before another digit.
fn is_padded(digits: &[u8]) -> bool
    ensures { result ≡ is_padded digits.now }
{
    match digits {
        [first, _, ..] => *first == b'0',
        _ => false,
    }
}

/// Decimal digits without zeros in front.
#[tactic(auto, using(crate::proofs::Trimming::trimmed_padded, crate::proofs::Trimming::trimmed_done, crate::proofs::Trimming::padded_some))]
pub fn trimmed<'t>(digits: &'t [u8]) -> &'t [u8]
    ensures { result.now ≡ trimmed digits.now }
{
    let mut rest = digits;
    'each: while is_padded(rest) {
        rest = &rest[1..];
    }
    rest
}

/// The bytes of a symbol's name. A number is a name too: its decimal digits.
#[tactic(auto, unfolding(crate::specs::Symbols::symbol_name))]
pub fn symbol_name(alloc: Global, name: &Name) -> Result<Text, AllocError>
    ensures { IfOk result (λ text. text ≡ symbol_name name.now) }
{
    let digits = name.token().bare();
    if is_numeral(digits) {
        return Text::copied(alloc, trimmed(digits));
    }
    let content = name.token().content(alloc)?;
    Text::copied(alloc, content.as_slice())
}

/// The symbol of a name.
pub fn symbol_of(alloc: Global, name: &Name) -> Result<Symbol, AllocError>
    ensures { IfOk result (λ symbol. symbol ≡ symbol_of name.now) }
{
    let name = symbol_name(alloc, name)?;
    Ok(Symbol { home: None, name })
}
