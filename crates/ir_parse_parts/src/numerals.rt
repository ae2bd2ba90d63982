//! Numbers as they are written in digits, and the alignments among them.

ghost use Rattle.std.specs.Prelude.{◌≡◌, ◌≤◌, ◌^◌, MatchOption};
ghost use Rattle.ir_parse_parts.specs.Alphabet.{contains};
ghost use Rattle.ir_parse_parts.specs.Readers.{Returns, token_at};
ghost use Rattle.ir_lex.specs.Rows.{begins};
ghost use Rattle.ir_lex.specs.Tok.{tok};
ghost use Rattle.ir_parse_parts.specs.Decimals.{decimal, ALIGNMENTS, alignment_of, is_alignment};

use crate::terminals::refusal;
use crate::tokens::Tokens;
use crate::{Fault, ReaderError, TokenFault};
use ir_lex::{Token, TokenKind};

/// The number that these digits write, or `None` from `2^64` on. Leading zeros count for nothing.
pub fn decimal(digits: &[u8]) -> Option<u64>
    ensures { MatchOption result (2 ^ 64 ≤ decimal digits.now) (λ n. n ≡ decimal digits.now) }
{
    let mut n: u64 = 0;
    'each: for digit in digits {
        let Some(tens) = n.checked_mul(10) else {
            return None;
        };
        let Some(sum) = tens.checked_add(u64::from(digit.saturating_sub(b'0'))) else {
            return None;
        };
        n = sum;
    }
    Some(n)
}

fn is_power(n: u64) -> bool
    ensures { result ≡ contains ALIGNMENTS n }
{
    matches!(
        n,
        1 | 2
            | 4
            | 8
            | 16
            | 32
            | 64
            | 128
            | 256
            | 512
            | 1024
            | 2048
            | 4096
            | 8192
            | 16384
            | 32768
            | 65536
            | 131072
            | 262144
            | 524288
            | 1048576
            | 2097152
            | 4194304
            | 8388608
            | 16777216
            | 33554432
            | 67108864
            | 134217728
            | 268435456
            | 536870912
            | 1073741824
    )
}

/// The alignment that a number writes: a power of two from 1 to `2^30`.
#[tactic(auto, unfolding(crate::specs::Decimals::alignment_of))]
fn alignment_of(text: &[u8]) -> Result<u64, TokenFault>
    ensures { result ≡ alignment_of text.now }
{
    match decimal(text) {
        Some(n) => {
            if is_power(n) && !begins_minus(text) {
                Ok(n)
            } else {
                Err(TokenFault::Number)
            }
        }
        None => Err(TokenFault::Number),
    }
}

fn begins_minus(text: &[u8]) -> bool
    ensures { result ≡ begins 45 text.now }
{
    match text {
        [b'-', ..] => true,
        _ => false,
    }
}

#[tactic(auto, unfolding(crate::specs::Decimals::is_alignment))]
fn alignment_means(t: &Token) -> Result<u64, TokenFault>
    ensures { result ≡ is_alignment (tok t.now) }
{
    if t.kind.is(TokenKind::Number) {
        alignment_of(t.text)
    } else {
        Err(refusal(t.kind))
    }
}

/// Takes an alignment, in bytes: a power of two from 1 to `2^30`; another number is out of range.
pub fn alignment_at(tokens: &mut Tokens) -> Result<u64, ReaderError>
    ensures { Returns (λ x. (x, tokens.new)) result (token_at is_alignment tokens.old) }
{
    let left = tokens.left();
    match tokens.take() {
        None => Err(ReaderError::Fault(Fault {
            left,
            kind: TokenFault::Syntax,
        })),
        Some(t) => match alignment_means(&t) {
            Ok(align) => Ok(align),
            Err(kind) => Err(ReaderError::Fault(Fault { left, kind })),
        },
    }
}
