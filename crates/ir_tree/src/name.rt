//! Names of symbols as they are written (LangRef, "Identifiers").
ghost use Rattle.std.specs.Prelude.{◌≡◌, ◌<◌, [], ◌∷◌, ◌++◌, List, ℕ, true, IfOk, Some};
ghost use Rattle.std.specs.List.{list_all};
ghost use Rattle.ir_tree.specs.Names.{between, is_name_start, is_name_byte, is_bare, hex_digit, is_plain, escaped, is_hex, hex_value, opened, given, pending, unescaped, closes, is_string, IsOpen, AllBytes};
ghost use Rattle.ir_tree.specs.Names as names;
ghost use Rattle.ir_tree.specs.declared.name.Escape.TheVariants.{Closed};

use crate::text::Text;
use std::alloc::{AllocError, Global};

/// How far an escape of a string has been read: none is open, its backslash, or that and a first
/// hexadecimal digit.
#[derive(Clone, Copy)]
pub enum Escape {
    Closed,
    Slash,
    Digit(u8),
}

const QUOTE: u8 = b'"';

const BACKSLASH: u8 = b'\\';

fn is_name_start(byte: u8) -> bool
    ensures { result ≡ is_name_start byte }
{
    byte.is_ascii_alphabetic() || byte == b'-' || byte == b'$' || byte == b'.' || byte == b'_'
}

fn is_name_byte(byte: u8) -> bool
    ensures { result ≡ is_name_byte byte }
{
    is_name_start(byte) || byte.is_ascii_digit()
}

fn are_name_bytes(bytes: &[u8]) -> bool
    ensures { result ≡ list_all is_name_byte bytes.now }
{
    bytes.iter().all(|byte| is_name_byte(*byte))
}

/// Whether a name may stand without quotes: a letter or one of `-$._`, and then these and digits.
pub fn is_bare(name: &[u8]) -> bool
    ensures { result ≡ is_bare name.now }
{
    match name {
        [] => false,
        [first, rest @ ..] => is_name_start(*first) && are_name_bytes(rest),
    }
}

fn hex_digit(digit: u8) -> u8
    requires { digit < 16 }
    ensures { result ≡ hex_digit digit }
{
    if digit < 10 {
        b'0' + digit
    } else {
        b'A' - 10 + digit
    }
}

fn push_escaped(byte: u8, out: &mut Vec<u8>) -> Result<(), AllocError>
    ensures { IfOk result (λ _. out.new.items ≡ out.old.items ++ escaped (byte ∷ [])) }
{
    if 32 <= byte && byte <= 126 && byte != QUOTE && byte != BACKSLASH {
        out.push(byte)?;
    } else {
        out.push(BACKSLASH)?;
        out.push(hex_digit(byte / 16))?;
        out.push(hex_digit(byte % 16))?;
    }
    Ok(())
}

/// Appends bytes as they stand between quotes: each byte outside 0x20 to 0x7E, the quote and the
/// backslash as a backslash and two upper-case hexadecimal digits.
pub fn escape_into(bytes: &[u8], out: &mut Vec<u8>) -> Result<(), AllocError>
    ensures { IfOk result (λ _. out.new.items ≡ out.old.items ++ escaped bytes.now) }
{
    for byte in bytes {
        push_escaped(*byte, out)?;
    }
    Ok(())
}

/// Appends a name as it is printed behind its sigil.
#[tactic(auto, unfolding(crate::specs::Names::quoted))]
pub fn quote_into(name: &[u8], out: &mut Vec<u8>) -> Result<(), AllocError>
    ensures { IfOk result (λ _. out.new.items ≡ out.old.items ++ names.quoted name.now) }
{
    if is_bare(name) {
        return out.extend_from_slice(name);
    }
    out.push(QUOTE)?;
    escape_into(name, out)?;
    out.push(QUOTE)?;
    Ok(())
}

/// A name as it is printed behind its sigil: bare, or between quotes where a byte asks for it.
pub fn quoted(alloc: Global, name: &[u8]) -> Result<Text, AllocError>
    ensures { IfOk result (λ text. text ≡ names.quoted name.now) }
{
    let mut out = Vec::new(alloc);
    quote_into(name, &mut out)?;
    Ok(Text::of(out))
}

fn hex_value(digit: u8) -> u8
    requires { is_hex digit ≡ true }
    ensures value { result ≡ hex_value digit }
    ensures small { result < 16 }
{
    if digit <= b'9' {
        digit - b'0'
    } else if digit <= b'F' {
        digit - (b'A' - 10)
    } else {
        digit - (b'a' - 10)
    }
}

/// Reads one byte of a string's content.
fn unescape(state: Escape, byte: u8, out: &mut Vec<u8>) -> Result<Escape, AllocError>
    requires { IsOpen state }
    ensures opens { IfOk result (λ now. now ≡ opened state byte) }
    ensures digit { IfOk result (λ now. IsOpen now) }
    ensures given { IfOk result (λ _. out.new.items ≡ out.old.items ++ given state byte) }
{
    match state {
        Escape::Closed => {
            if byte == BACKSLASH {
                return Ok(Escape::Slash);
            }
            out.push(byte)?;
            Ok(Escape::Closed)
        }
        Escape::Slash => {
            if byte.is_ascii_hexdigit() {
                return Ok(Escape::Digit(byte));
            }
            out.push(BACKSLASH)?;
            if byte != BACKSLASH {
                out.push(byte)?;
            }
            Ok(Escape::Closed)
        }
        Escape::Digit(high) => {
            if byte.is_ascii_hexdigit() {
                out.push(16 * hex_value(high) + hex_value(byte))?;
                return Ok(Escape::Closed);
            }
            out.push(BACKSLASH)?;
            out.push(high)?;
            if byte == BACKSLASH {
                return Ok(Escape::Slash);
            }
            out.push(byte)?;
            Ok(Escape::Closed)
        }
    }
}

/// Appends what an escape stands for that the end cuts off.
fn close(state: Escape, out: &mut Vec<u8>) -> Result<(), AllocError>
    ensures { IfOk result (λ _. out.new.items ≡ out.old.items ++ pending state) }
{
    match state {
        Escape::Closed => {}
        Escape::Slash => out.push(BACKSLASH)?,
        Escape::Digit(high) => {
            out.push(BACKSLASH)?;
            out.push(high)?;
        }
    }
    Ok(())
}

/// What a string's content says, between its quotes.
pub fn unescaped(alloc: Global, content: &[u8]) -> Result<Text, AllocError>
    ensures { IfOk result (λ text. text ≡ names.unescaped Closed content.now) }
{
    let mut out = Vec::new(alloc);
    let mut state = Escape::Closed;
    for byte in content {
        state = unescape(state, *byte, &mut out)?;
    }
    close(state, &mut out)?;
    Ok(Text::of(out))
}

fn closes(bytes: &[u8]) -> bool
    ensures { result ≡ closes bytes.now }
{
    for i in 0..bytes.len() {
        if bytes[i] == QUOTE {
            return i == bytes.len() - 1;
        }
    }
    false
}

fn is_string(bytes: &[u8]) -> bool
    ensures { result ≡ is_string bytes.now }
{
    match bytes {
        [] => false,
        [first, rest @ ..] => *first == QUOTE && closes(rest),
    }
}

/// The name that is written so behind a sigil; `None` exactly where the bytes are neither a bare
/// name nor one whole string.
#[tactic(auto, unfolding(crate::specs::Names::unquoted))]
pub fn unquoted(alloc: Global, bytes: &[u8]) -> Result<Option<Text>, AllocError>
    ensures { IfOk result (λ name. name ≡ names.unquoted bytes.now) }
{
    if is_bare(bytes) {
        return Ok(Some(Text::copied(alloc, bytes)?));
    }
    if !is_string(bytes) {
        return Ok(None);
    }
    Ok(Some(unescaped(alloc, &bytes[1..bytes.len() - 1])?))
}

/// A name that is written is read as itself.
pub fn quoted_again()
    ensures { (name : List ℕ) → AllBytes name → names.unquoted (names.quoted name) ≡ Some name }
{}
