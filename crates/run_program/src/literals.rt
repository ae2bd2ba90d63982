//! Integers of a width, as the words of a run give them and as its line says them (LangRef, "Simple Constants").
ghost use Rattle.std.specs.Prelude.{◌≡◌, ◌+◌, ◌<◌, ◌^◌};
ghost use Rattle.ir_parse_parts.specs.Literals.{IsWidth, negated, unsigned};
ghost use Rattle.run_program.specs.Said.{number_said};
ghost use Rattle.run_program.specs.Starting.{literal};

use lto_fault::Returned;
use lto_words::Decimal;

/// The greatest number of a width.
fn greatest(width: u8) -> u64
    requires { IsWidth width }
    ensures { result + 1 ≡ 2 ^ width }
{
    u64::MAX >> (64 - width)
}

/// A number that is below `2^width`.
fn unsigned(width: u8, magnitude: u64) -> Option<u64>
    requires { IsWidth width }
    ensures { result ≡ unsigned width magnitude }
{
    let most = greatest(width);
    if magnitude > most {
        return None;
    }
    Some(magnitude)
}

/// Minus a number that is at most `2^(width-1)`, as bits.
fn negated(width: u8, magnitude: u64) -> Option<u64>
    requires { IsWidth width }
    ensures { result ≡ negated width magnitude }
{
    let most = greatest(width);
    let half = most / 2 + 1;
    if magnitude > half {
        return None;
    }
    if magnitude == 0 {
        return Some(0);
    }
    Some(most - magnitude + 1)
}

/// The bits of a decimal as a literal of an integer type: a number from `-2^(width-1)` to `2^width - 1`.
pub(crate) fn literal(width: u8, decimal: Decimal) -> Option<u64>
    requires { IsWidth width }
    ensures { result ≡ literal width decimal.negative decimal.magnitude }
{
    match decimal.magnitude {
        None => None,
        Some(magnitude) => {
            if decimal.negative {
                negated(width, magnitude)
            } else {
                unsigned(width, magnitude)
            }
        }
    }
}

/// A number of a width as it is said: `true` or `false`, or by sign and magnitude.
pub(crate) fn number_said(width: u8, bits: u64) -> Returned
    requires some { IsWidth width }
    requires below { bits < 2 ^ width }
    ensures { result ≡ number_said width bits }
{
    if width == 1 {
        return Returned::Truth(bits != 0);
    }
    let most = greatest(width);
    let half = most / 2;
    if bits <= half {
        return Returned::Number {
            negative: false,
            magnitude: bits,
        };
    }
    Returned::Number {
        negative: true,
        magnitude: most - bits + 1,
    }
}
