//! Numbers in decimal digits.
ghost use Rattle.std.specs.Prelude.{◌≡◌, ◌≤◌, ◌<◌, ◌^◌, true, None, IfSome, IsNone, ℕ};
ghost use Rattle.std.specs.Char.{is_ascii_digit};
ghost use Rattle.std.specs.List.{list_all};
ghost use Rattle.std.specs.Str.Parse.{digits_value};
ghost use Rattle.lto_words.specs.Values.{WritesNumber, is_numeral, within_64};

/// The most digits of an option's number.
const MOST_DIGITS: usize = 10;

/// Whether the text is decimal digits, one at least.
pub(crate) fn is_numeral(text: &str) -> bool
    ensures { result ≡ is_numeral text.now }
{
    if text.is_empty() {
        return false;
    }
    text.as_bytes().iter().all(|byte| byte.is_ascii_digit())
}

/// The number that digits write, where 64 bits hold it.
pub(crate) fn value_of(text: &str) -> Option<u64>
    requires { is_numeral text.now ≡ true }
    ensures { result ≡ within_64 (digits_value 10 text.now) }
{
    match text.parse::<u64>() {
        Ok(value) => Some(value),
        Err(_) => None,
    }
}

/// The number that one to ten digits write, where it is in range.
pub(crate) fn number(text: &str, least: u32, most: u32) -> Option<u32>
    ensures some { IfSome result (λ n. WritesNumber least most text.now n) }
    ensures none { IsNone result → (n : ℕ) → WritesNumber least most text.now n → ⊥ }
{
    if MOST_DIGITS < text.len() {
        return None;
    }
    if !is_numeral(text) {
        return None;
    }
    let value = value_of(text)?;
    if value < u64::from(least) {
        return None;
    }
    if u64::from(most) < value {
        return None;
    }
    Some(value as u32)
}
