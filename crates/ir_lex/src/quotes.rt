//! What the text of names and strings stands for.

ghost use Rattle.std.specs.Prelude.{◌≡◌, ◌≤◌, ◌+◌, ◌*◌, ◌&&◌, if◌then◌else◌, length, IfOk, IsOkAnd, option_copied};
ghost use Rattle.std.specs.Char.{digit_value, is_digit};
ghost use Rattle.std.specs.Cow.{cow_slice_items, IsBorrowedSlice};
ghost use Rattle.ir_lex.specs.Quotes.{spells, escaped, spelled_at, unescaped, inside, stripped, content, is_name, is_plain, is_zero_name, has_zero, has_backslash};

use crate::token::{Token, TokenForm};
use std::alloc::{AllocError, Global};
use std::borrow::CowSlice;

/// A byte, and how many bytes behind the first one spell it.
#[derive(Clone, Copy)]
pub struct Escape {
    pub byte: u8,
    pub behind: usize,
}

/// What a backslash before these two bytes stands for.
fn hex_pair(high: u8, low: u8) -> Escape
    ensures exact { result ≡ (if is_digit high 16 && is_digit low 16 then spells (digit_value high * 16 + digit_value low) 2 else spells 92 0) }
    ensures within { result.behind ≤ 2 }
{
    match ((high as char).to_digit(16), (low as char).to_digit(16)) {
        (Some(h), Some(l)) => Escape {
            byte: (h * 16 + l) as u8,
            behind: 2,
        },
        _ => Escape {
            byte: b'\\',
            behind: 0,
        },
    }
}

/// What a backslash before these bytes stands for.
fn escaped(bytes: &[u8]) -> Escape
    ensures exact { result ≡ escaped bytes.now }
    ensures within { result.behind ≤ length bytes.now }
{
    match bytes {
        [b'\\', ..] => Escape {
            byte: b'\\',
            behind: 1,
        },
        [high, low, ..] => hex_pair(*high, *low),
        _ => Escape {
            byte: b'\\',
            behind: 0,
        },
    }
}

/// What the first byte stands for before the others.
pub fn spelled_at(first: u8, rest: &[u8]) -> Escape
    ensures exact { result ≡ spelled_at first rest.now }
    ensures within { result.behind ≤ length rest.now }
{
    if first == b'\\' {
        escaped(rest)
    } else {
        Escape {
            byte: first,
            behind: 0,
        }
    }
}

/// The bytes that these stand for.
fn unescaped(alloc: Global, bytes: &[u8]) -> Result<Vec<u8>, AllocError>
    ensures { IfOk result (λ v. v.items ≡ unescaped bytes.now) }
{
    let mut out = Vec::with_capacity(alloc, bytes.len())?;
    let mut rest = bytes;
    'each: while let [first, others @ ..] = rest {
        let escape = spelled_at(*first, others);
        out.push(escape.byte)?;
        let (_spelled, after) = others.split_at(escape.behind);
        rest = after;
    }
    Ok(out)
}

/// Whether the bytes that these stand for have a zero among them.
fn hides_zero(bytes: &[u8]) -> bool
    ensures { result ≡ has_zero (unescaped bytes.now) }
{
    let mut rest = bytes;
    'each: while let [first, others @ ..] = rest {
        let escape = spelled_at(*first, others);
        if escape.byte == 0 {
            return true;
        }
        let (_spelled, after) = others.split_at(escape.behind);
        rest = after;
    }
    false
}

fn has_backslash(bytes: &[u8]) -> bool
    ensures { result ≡ has_backslash bytes.now }
{
    let mut at = 0;
    'each: while at < bytes.len() {
        if bytes[at] == b'\\' {
            return true;
        }
        at += 1;
    }
    false
}

/// What stands between quotes.
pub fn inside<'a>(text: &'a [u8]) -> Option<&'a [u8]>
    ensures { option_copied result ≡ inside text.now }
{
    match text {
        [first, middle @ .., _last] => { if *first == b'"' { Some(middle) } else { None } }
        _ => None,
    }
}

/// A token's text without its sigil, its `c` or its colon.
pub fn stripped<'a>(form: TokenForm, text: &'a [u8]) -> &'a [u8]
    ensures { result.now ≡ stripped form text.now }
{
    match form {
        TokenForm::Label => match text {
            [all @ .., _colon] => all,
            _ => text,
        },
        TokenForm::Local | TokenForm::Global | TokenForm::Comdat | TokenForm::CStr => match text {
            [_sigil, all @ ..] => all,
            _ => text,
        },
        TokenForm::Number
        | TokenForm::Word
        | TokenForm::Meta
        | TokenForm::Group
        | TokenForm::Str
        | TokenForm::Dots
        | TokenForm::Other => text,
    }
}

fn is_name(form: TokenForm) -> bool
    ensures { result ≡ is_name form }
{
    match form {
        TokenForm::Label | TokenForm::Local | TokenForm::Global | TokenForm::Comdat => true,
        TokenForm::Number
        | TokenForm::Word
        | TokenForm::Meta
        | TokenForm::Group
        | TokenForm::Str
        | TokenForm::CStr
        | TokenForm::Dots
        | TokenForm::Other => false,
    }
}

/// Whether this is a name that holds a zero byte.
#[tactic(auto, unfolding(crate::specs::Quotes::is_zero_name))]
pub fn is_zero_name(form: TokenForm, text: &[u8]) -> bool
    ensures { result ≡ is_zero_name form text.now }
{
    if !is_name(form) {
        return false;
    }
    match inside(stripped(form, text)) {
        None => false,
        Some(quoted) => hides_zero(quoted),
    }
}

impl<'a> Token<'a> {
    /// The text without its sigil, its `c` or its colon; quotes and escapes stand in it as they are
    /// written.
    pub fn bare(&self) -> &'a [u8]
        ensures { result.now ≡ stripped self.now.form self.now.text.now }
    {
        stripped(self.form, self.text)
    }

    /// What the token stands for: the name of a `Label`, `Local`, `Global` or `Comdat`, without
    /// its sigil or colon, and the bytes of a `Str` or `CStr`. Of any other token it is the text.
    ///
    /// In quotes `\\` is a backslash, a backslash and two hexadecimal digits are that byte, and
    /// any other backslash is itself. Text that has no backslash is borrowed.
    #[tactic(auto, unfolding(crate::specs::Quotes::content, crate::specs::Quotes::is_plain))]
    pub fn content(&self, alloc: Global) -> Result<CowSlice<'a, u8, Global>, AllocError>
        ensures value { IfOk result (λ c. cow_slice_items c ≡ content self.now.form self.now.text.now) }
        // Without a backslash in quotes no memory is needed.
        ensures borrows { is_plain self.now.form self.now.text.now → IsOkAnd result IsBorrowedSlice }
    {
        let bare = stripped(self.form, self.text);
        match inside(bare) {
            None => Ok(CowSlice::Borrowed(bare)),
            Some(quoted) => {
                if has_backslash(quoted) {
                    Ok(CowSlice::Owned(unescaped(alloc, quoted)?))
                } else {
                    Ok(CowSlice::Borrowed(quoted))
                }
            }
        }
    }
}
