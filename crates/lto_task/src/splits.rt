//! Bytes split at others, and numbers behind them.
ghost use Rattle.std.specs.Prelude.{◌≡◌, ◌<◌, ◌^◌, ◌↔◌, ◌++◌, ◌∷◌, ℕ, List, IsTrue, MatchOption, decimal};
ghost use Rattle.lto_task.specs.Splits.{Lacks};

use itoa::Buffer;
use memchr::{memchr, memrchr};

/// What stands before the first such byte, and what behind it.
pub(crate) fn split_first(bytes: &[u8], at: u8) -> Option<(&[u8], &[u8])>
    ensures { MatchOption result (Lacks at bytes.now) (λ p. Lacks at p.0.now × (bytes.now ≡ p.0.now ++ at ∷ p.1.now)) }
{
    match memchr(at, bytes) {
        Some(place) => Some((&bytes[..place], &bytes[place + 1..])),
        None => None,
    }
}

/// What stands before the last such byte, and what behind it.
fn split_last(bytes: &[u8], at: u8) -> Option<(&[u8], &[u8])>
    ensures { MatchOption result (Lacks at bytes.now) (λ p. Lacks at p.1.now × (bytes.now ≡ p.0.now ++ at ∷ p.1.now)) }
{
    match memrchr(at, bytes) {
        Some(place) => Some((&bytes[..place], &bytes[place + 1..])),
        None => None,
    }
}

/// Whether the number is written so.
fn is_decimal(number: usize, text: &str) -> bool
    ensures { IsTrue result ↔ (text.now ≡ decimal number) }
{
    let mut buffer = Buffer::new();
    buffer.format(number) == text
}

/// What stands behind these bytes.
pub(crate) fn behind<'a>(bytes: &'a [u8], front: &[u8]) -> Option<&'a [u8]>
    ensures { MatchOption result ((rest : List ℕ) → bytes.entry.now ≡ front.now ++ rest → ⊥) (λ rest. bytes.entry.now ≡ front.now ++ rest.now) }
{
    match bytes.strip_prefix(front) {
        Some(rest) => Some(rest),
        None => None,
    }
}

/// The number that a text is, in decimal digits without zeros in front.
fn number_of(text: &str) -> Option<usize>
    ensures { MatchOption result ((n : ℕ) → n < 2 ^ 64 → text.now ≡ decimal n → ⊥) (λ n. text.now ≡ decimal n) }
{
    match text.parse::<usize>() {
        Ok(number) => {
            if is_decimal(number, text) {
                Some(number)
            } else {
                None
            }
        }
        Err(_) => None,
    }
}

/// The number that is written so.
fn number(digits: &[u8]) -> Option<usize>
    ensures { MatchOption result ((n : ℕ) → n < 2 ^ 64 → digits.now ≡ decimal n → ⊥) (λ n. digits.now ≡ decimal n) }
{
    match str::from_utf8(digits) {
        Ok(text) => number_of(text),
        Err(_) => None,
    }
}

/// What stands before a blank and a number, and the number.
pub(crate) fn split_number(bytes: &[u8]) -> Option<(&[u8], usize)>
    ensures { MatchOption result ((front : List ℕ) (n : ℕ) → n < 2 ^ 64 → bytes.now ≡ front ++ (32 ∷ decimal n) → ⊥) (λ p. (p.1 < 2 ^ 64) × (bytes.now ≡ p.0.now ++ (32 ∷ decimal p.1))) }
{
    let Some((front, digits)) = split_last(bytes, b' ') else {
        return None;
    };
    match number(digits) {
        Some(number) => Some((front, number)),
        None => None,
    }
}
