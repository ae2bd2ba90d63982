//! The numbers that literals write (LangRef, "Simple Constants").

ghost use Rattle.std.specs.Prelude.{◌≡◌, ◌+◌, ◌<◌, ◌≤◌, ◌^◌};
ghost use Rattle.ir_parse_parts.specs.Decimals.{decimal};
ghost use Rattle.ir_parse_parts.specs.Literals.{IsWidth, unsigned, negated, literal};

use crate::numerals::decimal;

/// The greatest number of a width.
fn greatest(width: u8) -> u64
    requires { IsWidth width }
    ensures { result + 1 ≡ 2 ^ width }
{
    u64::MAX >> (64 - width)
}

fn unsigned(width: u8, digits: &[u8]) -> Option<u64>
    requires { IsWidth width }
    ensures { result ≡ unsigned width (decimal digits.now) }
{
    let most = greatest(width);
    match decimal(digits) {
        Some(n) if n <= most => Some(n),
        _ => None,
    }
}

fn negated(width: u8, digits: &[u8]) -> Option<u64>
    requires { IsWidth width }
    ensures { result ≡ negated width (decimal digits.now) }
{
    let most = greatest(width);
    let half = most / 2 + 1;
    match decimal(digits) {
        Some(0) => Some(0),
        Some(n) if n <= half => Some(most - n + 1),
        _ => None,
    }
}

/// The bits of a literal of `iN`, a number from `-2^(N-1)` to `2^N - 1`; `None` for any other.
#[tactic(auto, unfolding(crate::specs::Literals::literal))]
pub fn literal(width: u8, text: &[u8]) -> Option<u64>
    requires { IsWidth width }
    ensures { result ≡ literal width text.now }
{
    match text {
        [b'-', digits @ ..] => negated(width, digits),
        _ => unsigned(width, text),
    }
}
