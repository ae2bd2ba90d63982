//! Decimal numbers in names.
ghost use Rattle.std.specs.Prelude.{◌≡◌, ◌<◌, ◌^◌};
ghost use Rattle.std.specs.Option.{SomeIff};
ghost use Rattle.std.specs.List.{list_all};
ghost use Rattle.std.specs.Char.{is_ascii_digit};
ghost use Rattle.ir_parse_names.specs.Keys.{decimal_of, is_numeral};

/// The number that decimal digits write, where it is below `2^32`.
pub fn decimal_of(digits: &[u8]) -> Option<u32>
    ensures { SomeIff result (decimal_of digits.now < 2 ^ 32) (decimal_of digits.now) }
{
    let mut n: u32 = 0;
    for d in digits {
        let digit = u32::from(d.saturating_sub(48));
        n = n.checked_mul(10)?.checked_add(digit)?;
    }
    Some(n)
}

fn are_digits(text: &[u8]) -> bool
    ensures { result ≡ list_all is_ascii_digit text.now }
{
    text.iter().all(|d| d.is_ascii_digit())
}

/// Whether these are decimal digits, at least one.
pub fn is_numeral(text: &[u8]) -> bool
    ensures { result ≡ is_numeral text.now }
{
    match text {
        [] => false,
        [_, ..] => are_digits(text),
    }
}
