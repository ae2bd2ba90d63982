//! Lists with commas between: names, and signed decimals.
ghost use Rattle.std.specs.Prelude.{◌≡◌, ◌++◌, map, option_map, IfOk, IfSome, IsNone, None, Some, false};
ghost use Rattle.std.specs.List.{list_any};
ghost use Rattle.clap.specs.Lexer.{strip_byte};
ghost use Rattle.clap.specs.Walk.{texts};
ghost use Rattle.lto_words.specs.Reads.{Tells};
ghost use Rattle.lto_words.specs.Values.{AreDecimals, AreNames, decimal, is_empty, once, parts, signed};

use crate::fault::WordsError;
use crate::number::{is_numeral, value_of};
use indexmap::IndexSet;
use ir_tree::{Rows, Text};
use std::alloc::{AllocError, Global};

/// A signed decimal number of any length.
#[derive(Clone, Copy)]
pub struct Decimal {
    /// Whether a hyphen stands before the digits.
    pub negative: bool,
    /// What the digits write; `None` is `2^64` or more, which no width holds.
    pub magnitude: Option<u64>,
}

fn strip_hyphen(text: &str) -> Option<&str>
    ensures { option_map (λ s. s.now) result ≡ strip_byte 45 text.now }
{
    text.strip_prefix('-')
}

fn signed(negative: bool, digits: &str) -> Option<Decimal>
    ensures { result ≡ signed negative digits.now }
{
    if is_numeral(digits) {
        Some(Decimal {
            negative,
            magnitude: value_of(digits),
        })
    } else {
        None
    }
}

/// The number, unless the text is none.
fn decimal_of(text: &str) -> Option<Decimal>
    ensures { result ≡ decimal text.now }
{
    match strip_hyphen(text) {
        Some(digits) => signed(true, digits),
        None => signed(false, text),
    }
}

/// What stands between the commas.
fn parts<'a>(alloc: Global, list: &'a str) -> Result<Vec<&'a str>, AllocError>
    ensures { IfOk result (λ v. texts v.items ≡ parts list.entry.now) }
{
    list.split(',').collect(alloc)
}

/// Whether one of the texts is empty.
pub(crate) fn has_empty(list: &[&str]) -> bool
    ensures { result ≡ list_any is_empty (texts list.now) }
{
    list.iter().any(|text| text.is_empty())
}

/// Copies of these texts.
pub(crate) fn rows_of(alloc: Global, names: &[&str]) -> Result<Rows<Text>, AllocError>
    ensures { IfOk result (λ rows. rows ≡ texts names.now) }
{
    let mut rows = Rows::new(alloc);
    for name in names {
        rows.push(Text::copied(alloc, name.as_bytes())?)?;
    }
    Ok(rows)
}

/// Each name once, in the order in which they first come.
fn once(alloc: Global, parts: &[&str]) -> Result<Rows<Text>, AllocError>
    ensures { IfOk result (λ names. names ≡ once (texts parts.now)) }
{
    let mut seen = IndexSet::new(alloc);
    for part in parts {
        seen.insert(*part)?;
    }
    rows_of(alloc, seen.as_slice())
}

/// A list of names.
pub(crate) fn names(alloc: Global, list: &str) -> Result<Rows<Text>, WordsError>
    ensures { Tells (AreNames list.now) result }
{
    let parts = parts(alloc, list)?;
    if has_empty(&parts) {
        return Err(WordsError::Usage);
    }
    Ok(once(alloc, &parts)?)
}

/// A list of signed decimals.
fn all_decimals(alloc: Global, parts: &[&str]) -> Result<Rows<Decimal>, WordsError>
    ensures { Tells (λ numbers. map decimal (texts parts.now) ≡ map (λ d. Some d) numbers) result }
{
    let mut numbers = Rows::new(alloc);
    for part in parts {
        let Some(number) = decimal_of(part) else {
            return Err(WordsError::Usage);
        };
        numbers.push(number)?;
    }
    Ok(numbers)
}

pub(crate) fn decimals(alloc: Global, list: &str) -> Result<Rows<Decimal>, WordsError>
    ensures { Tells (AreDecimals list.now) result }
{
    let parts = parts(alloc, list)?;
    all_decimals(alloc, &parts)
}
