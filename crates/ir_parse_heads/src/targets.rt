//! Reads lines that name the target or the source, and comdats (LangRef, "Data Layout", "Target Triple",
//! "Source Filename", "Comdats").

ghost use Rattle.std.specs.Prelude.{◌≡◌, Option, Some, None, MatchOption};
ghost use Rattle.ir_parse_parts.specs.Readers.{Returns, token_at};
ghost use Rattle.ir_parse_parts.specs.Classes.{one_of_at, itself};
ghost use Rattle.ir_parse_parts.specs.declared.raw.Item.TheVariants as items;
ghost use Rattle.ir_parse_heads.specs.Targets.{STRING, until, after, has_64_bits, fits_item, fits_layout, is_layout};
ghost use Rattle.ir_parse_heads.specs.TargetsAt.{layout_line_at, triple_line_at, source_line_at, comdat_line_at};

use ir_lex::TokenKind;
use ir_parse_parts::{Fault, Name, ReaderError, TokenFault, Tokens, done, expect, refusal};
use std::alloc::Global;

/// What stands before the first separator.
fn until(separator: u8, bytes: &[u8]) -> &[u8]
    ensures { result.now ≡ until separator bytes.now }
{
    let mut n = 0;
    'each: while n < bytes.len() && bytes[n] != separator {
        n += 1;
    }
    bytes.split_at(n).0
}

#[tactic(auto, unfolding(crate::specs::Targets::has_64_bits))]
fn has_64_bits(sizes: &[u8]) -> bool
    ensures { result ≡ has_64_bits sizes.now }
{
    until(b':', sizes) == b"64".as_slice()
}

/// Whether an item of a layout is one of little endian with pointers of 64 bits.
#[tactic(auto, unfolding(crate::specs::Targets::fits_item))]
fn fits_item(item: &[u8]) -> bool
    ensures { result ≡ fits_item item.now }
{
    if item == b"E".as_slice() {
        return false;
    }
    match item {
        [b'p', b':', sizes @ ..] => has_64_bits(sizes),
        [b'p', b'0', b':', sizes @ ..] => has_64_bits(sizes),
        _ => true,
    }
}

/// What stands behind the first separator, if there is one.
fn after(separator: u8, bytes: &[u8]) -> Option<&[u8]>
    ensures { MatchOption result (after separator bytes.now ≡ None) (λ r. after separator bytes.now ≡ Some r.now) }
{
    let mut rest = bytes;
    'each: while let [b, more @ ..] = rest {
        if *b == separator {
            return Some(more);
        }
        rest = more;
    }
    None
}

/// Whether each item of a layout, between its minus signs, is supported.
fn fits_layout(text: &[u8]) -> bool
    ensures { result ≡ fits_layout text.now }
{
    let mut rest = text;
    'each: loop {
        if !fits_item(until(b'-', rest)) {
            return false;
        }
        let Some(more) = after(b'-', rest) else {
            return true;
        };
        rest = more;
    }
}

/// Takes the string of a layout that is supported; another string is refused.
#[tactic(auto, unfolding(crate::specs::Targets::is_layout))]
fn layout_at(alloc: Global, tokens: &mut Tokens) -> Result<Name, ReaderError>
    ensures { Returns (λ x. (x, tokens.new)) result (token_at is_layout tokens.old) }
{
    let left = tokens.left();
    match tokens.take() {
        None => Err(ReaderError::Fault(Fault {
            left,
            kind: TokenFault::Syntax,
        })),
        Some(t) => {
            if !t.kind.is(TokenKind::Str) {
                return Err(ReaderError::Fault(Fault {
                    left,
                    kind: refusal(t.kind),
                }));
            }
            let content = t.content(alloc)?;
            if fits_layout(&content) {
                let name = Name::of(alloc, &t)?;
                done(name)
            } else {
                Err(ReaderError::Fault(Fault {
                    left,
                    kind: TokenFault::Profile,
                }))
            }
        }
    }
}

#[tactic(auto, unfolding(ir_parse_parts::specs::Rules::is_among))]
fn string_at(alloc: Global, tokens: &mut Tokens) -> Result<Name, ReaderError>
    ensures { Returns (λ x. (x, tokens.new)) result (one_of_at STRING itself tokens.old) }
{
    let left = tokens.left();
    match tokens.take() {
        None => Err(ReaderError::Fault(Fault {
            left,
            kind: TokenFault::Syntax,
        })),
        Some(t) => {
            if t.kind.is(TokenKind::Str) {
                let name = Name::of(alloc, &t)?;
                done(name)
            } else {
                Err(ReaderError::Fault(Fault {
                    left,
                    kind: refusal(t.kind),
                }))
            }
        }
    }
}

/// Reads what follows `target` where that is `datalayout`: its string.
#[tactic(auto, unfolding(crate::specs::TargetsAt::layout_line_at))]
pub fn layout_line_at(alloc: Global, tokens: &mut Tokens) -> Result<Name, ReaderError>
    ensures { Returns (λ x. (items.Datalayout x, tokens.new)) result (layout_line_at tokens.old) }
{
    expect(TokenKind::Datalayout, tokens)?;
    expect(TokenKind::Equals, tokens)?;
    layout_at(alloc, tokens)
}

/// Reads what follows `target` where that is `triple`: its string, as in
/// `target triple = "x86_64-pc-linux-gnu"`.
#[tactic(auto, unfolding(crate::specs::TargetsAt::triple_line_at))]
pub fn triple_line_at(alloc: Global, tokens: &mut Tokens) -> Result<Name, ReaderError>
    ensures { Returns (λ x. (items.Triple x, tokens.new)) result (triple_line_at tokens.old) }
{
    expect(TokenKind::Triple, tokens)?;
    expect(TokenKind::Equals, tokens)?;
    string_at(alloc, tokens)
}

/// Reads the name of the source, and drops it: `source_filename = "t.c"`.
#[tactic(auto, unfolding(crate::specs::TargetsAt::source_line_at))]
pub fn source_line_at(tokens: &mut Tokens) -> Result<(), ReaderError>
    ensures { Returns (λ x. (tt, tokens.new)) result (source_line_at tokens.old) }
{
    expect(TokenKind::SourceFilename, tokens)?;
    expect(TokenKind::Equals, tokens)?;
    expect(TokenKind::Str, tokens)
}

/// Reads a comdat, and drops it: `$f = comdat any`.
#[tactic(auto, unfolding(crate::specs::TargetsAt::comdat_line_at))]
pub fn comdat_line_at(tokens: &mut Tokens) -> Result<(), ReaderError>
    ensures { Returns (λ x. (tt, tokens.new)) result (comdat_line_at tokens.old) }
{
    expect(TokenKind::ComdatName, tokens)?;
    expect(TokenKind::Equals, tokens)?;
    expect(TokenKind::Comdat, tokens)?;
    expect(TokenKind::Any, tokens)
}
