//! Writes tokens, each behind its lead: its blank, and the tokens before it where they are always the same.
ghost use Rattle.std.specs.Prelude.{◌≡◌, ◌<◌, ◌∷◌, [], length, ◌++◌, IfOk, decimal};
ghost use Rattle.ir_print.specs.Tokens as tokens;
ghost use Rattle.ir_print.specs.Wrote.{Wrote};

use ir_tree::{escape_into, quote_into};
use itoa::Buffer;
use std::alloc::{AllocError, Global};

pub(crate) const TIGHT: &[u8] = b"";

pub(crate) const SPACE: &[u8] = b" ";

pub(crate) const COMMA: &[u8] = b", ";

pub(crate) const NEXT_LINE: &[u8] = b"\n";

pub(crate) const INDENT: &[u8] = b"\n  ";

fn push_decimal(n: u64, out: &mut Vec<u8>) -> Result<(), AllocError>
    ensures { IfOk result (λ _. out.new.items ≡ out.old.items ++ decimal n) }
{
    let mut buffer = Buffer::new();
    out.extend_from_slice(buffer.format(n).as_bytes())
}

/// A keyword, or several tokens that always stand in a row.
pub(crate) fn word(lead: &[u8], text: &[u8], out: &mut Vec<u8>) -> Result<(), AllocError>
    requires { 0 < length text.now }
    ensures { IfOk result (λ _. Wrote (tokens.word lead.now text.now) out.old.items out.new.items) }
{
    out.extend_from_slice(lead)?;
    out.extend_from_slice(text)
}

/// A keyword that is due or not.
#[tactic(auto, using(crate::proofs::Written::wrote_none))]
pub(crate) fn optional(text: &[u8], is_due: bool, out: &mut Vec<u8>) -> Result<(), AllocError>
    requires { 0 < length text.now }
    ensures { IfOk result (λ _. Wrote (tokens.optional text.now is_due) out.old.items out.new.items) }
{
    if is_due {
        word(SPACE, text, out)
    } else {
        Ok(())
    }
}

/// A mark, as `(`.
pub(crate) fn mark(lead: &[u8], c: u8, out: &mut Vec<u8>) -> Result<(), AllocError>
    ensures { IfOk result (λ _. Wrote (tokens.mark lead.now c) out.old.items out.new.items) }
{
    out.extend_from_slice(lead)?;
    out.push(c)?;
    Ok(())
}

/// `%n`.
pub(crate) fn local(lead: &[u8], n: u32, out: &mut Vec<u8>) -> Result<(), AllocError>
    ensures { IfOk result (λ _. Wrote (tokens.local lead.now n) out.old.items out.new.items) }
{
    out.extend_from_slice(lead)?;
    out.push(b'%')?;
    push_decimal(u64::from(n), out)
}

/// `@name`, quoted where it isn't bare.
pub(crate) fn global(lead: &[u8], name: &[u8], out: &mut Vec<u8>) -> Result<(), AllocError>
    ensures { IfOk result (λ _. Wrote (tokens.global lead.now name.now) out.old.items out.new.items) }
{
    out.extend_from_slice(lead)?;
    out.push(b'@')?;
    quote_into(name, out)
}

/// `iN`.
pub(crate) fn width(lead: &[u8], w: u8, out: &mut Vec<u8>) -> Result<(), AllocError>
    ensures { IfOk result (λ _. Wrote (tokens.width lead.now w) out.old.items out.new.items) }
{
    out.extend_from_slice(lead)?;
    out.push(b'i')?;
    push_decimal(u64::from(w), out)
}

/// A decimal without a sign.
pub(crate) fn natural(lead: &[u8], n: u64, out: &mut Vec<u8>) -> Result<(), AllocError>
    ensures { IfOk result (λ _. Wrote (tokens.natural lead.now n) out.old.items out.new.items) }
{
    out.extend_from_slice(lead)?;
    push_decimal(n, out)
}

/// `n:` on a line of its own.
pub(crate) fn label_line(n: u32, out: &mut Vec<u8>) -> Result<(), AllocError>
    ensures { IfOk result (λ _. Wrote (tokens.label_line n) out.old.items out.new.items) }
{
    out.push(b'\n')?;
    push_decimal(u64::from(n), out)?;
    out.push(b':')?;
    Ok(())
}

/// Bytes between quotes.
pub(crate) fn string(lead: &[u8], text: &[u8], out: &mut Vec<u8>) -> Result<(), AllocError>
    ensures { IfOk result (λ _. Wrote (tokens.string lead.now text.now) out.old.items out.new.items) }
{
    out.extend_from_slice(lead)?;
    out.push(b'"')?;
    escape_into(text, out)?;
    out.push(b'"')?;
    Ok(())
}

/// The bits of a width as a signed decimal.
fn push_signed(w: u8, bits: u64, out: &mut Vec<u8>) -> Result<(), AllocError>
    ensures { IfOk result (λ _. out.new.items ≡ out.old.items ++ tokens.signed w bits) }
{
    if w > 64 {
        return push_decimal(bits, out);
    }
    let half: u128 = 1 << u32::from(w.saturating_sub(1));
    if u128::from(bits) < half {
        return push_decimal(bits, out);
    }
    let all: u128 = 1 << u32::from(w);
    out.push(b'-')?;
    push_decimal(all.saturating_sub(u128::from(bits)) as u64, out)
}

/// The bits of a width as a signed decimal.
pub(crate) fn signed(lead: &[u8], w: u8, bits: u64, out: &mut Vec<u8>) -> Result<(), AllocError>
    ensures { IfOk result (λ _. Wrote (tokens.signed_piece lead.now w bits) out.old.items out.new.items) }
{
    out.extend_from_slice(lead)?;
    push_signed(w, bits, out)
}

/// An integer: `true` or `false` at width 1, else a signed decimal.
pub(crate) fn number(lead: &[u8], w: u8, bits: u64, out: &mut Vec<u8>) -> Result<(), AllocError>
    ensures { IfOk result (λ _. Wrote (tokens.number lead.now w bits) out.old.items out.new.items) }
{
    if w != 1 {
        return signed(lead, w, bits, out);
    }
    if bits == 0 {
        word(lead, b"false", out)
    } else {
        word(lead, b"true", out)
    }
}
