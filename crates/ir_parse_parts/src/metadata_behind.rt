//! Reads metadata behind the head of a declaration: with a node it belongs to the head, without one it
//! begins a line (LangRef, "Metadata", "Functions").

ghost use Rattle.std.specs.Prelude.{◌≡◌, true, false};
ghost use Rattle.ir_parse_parts.specs.Alphabet.{among};
ghost use Rattle.ir_parse_parts.specs.Readers.{Returns, next_is};
ghost use Rattle.ir_parse_parts.specs.Classes.{tokens, one_of_at};
ghost use Rattle.ir_parse_parts.specs.Metadata.{META, ends_line};
ghost use Rattle.ir_parse_parts.specs.MetadataBehind.{BANG, BRACES};
ghost use Rattle.ir_parse_parts.specs.MetadataBehindAt.{goes_on_but_at, named_node_at, behind_mark_at, marked_at, node_yet_at, node_or_line_at, metadata_behind_at};

use crate::brackets::{Bracket, group_at};
use crate::metadata::{meta_at, rest_of_line_at};
use crate::places::Before;
use crate::terminals::{expect, refusal};
use crate::tokens::Tokens;
use crate::{Fault, ReaderError, TokenFault};
use ir_lex::TokenKind;
use std::alloc::Global;

/// Reads the rest of a line that goes on with no metadata.
fn goes_on_plainly_at(alloc: Global, rest: &mut Tokens) -> Result<(), ReaderError>
    requires { next_is (among tokens META) rest.old ≡ false }
    ensures { Returns (λ x. (tt, rest.new)) result (goes_on_but_at META rest.old) }
{
    rest_of_line_at(alloc, false, rest)
}

/// Reads the rest of a line that goes on with no `{` and no `(`.
fn goes_on_without_group_at(alloc: Global, rest: &mut Tokens) -> Result<(), ReaderError>
    requires { next_is (among tokens BRACES) rest.old ≡ false }
    ensures { Returns (λ x. (tt, rest.new)) result (goes_on_but_at BRACES rest.old) }
{
    rest_of_line_at(alloc, false, rest)
}

#[tactic(auto, unfolding(crate::specs::MetadataBehindAt::named_node_at))]
fn named_node_at(alloc: Global, tokens: &mut Tokens) -> Result<Before, ReaderError>
    ensures { Returns (λ x. (x, tokens.new)) result (named_node_at tokens.old) }
{
    expect(TokenKind::Meta, tokens)?;
    if tokens.comes(TokenKind::OpenParen) {
        group_at(alloc, Bracket::Paren, tokens)?;
    }
    Ok(Before::Declaration)
}

#[tactic(auto, unfolding(crate::specs::MetadataBehindAt::behind_mark_at))]
fn behind_mark_at(alloc: Global, ends: bool, tokens: &mut Tokens) -> Result<Before, ReaderError>
    ensures { Returns (λ x. (x, tokens.new)) result (behind_mark_at ends tokens.old) }
{
    if tokens.comes(TokenKind::OpenBrace) {
        group_at(alloc, Bracket::Curly, tokens)?;
        Ok(Before::Declaration)
    } else if tokens.comes(TokenKind::OpenParen) {
        group_at(alloc, Bracket::Paren, tokens)?;
        Ok(Before::Declaration)
    } else if ends {
        Ok(Before::Item)
    } else {
        goes_on_without_group_at(alloc, tokens)?;
        Ok(Before::Item)
    }
}

/// Takes a `!`; the answer is whether its line ends behind it.
#[tactic(auto, unfolding(crate::specs::Rules::is_among))]
fn mark_at(tokens: &mut Tokens) -> Result<bool, ReaderError>
    ensures { Returns (λ x. (x, tokens.new)) result (one_of_at BANG ends_line tokens.old) }
{
    let left = tokens.left();
    match tokens.take() {
        None => Err(ReaderError::Fault(Fault {
            left,
            kind: TokenFault::Syntax,
        })),
        Some(t) => {
            if t.kind.is(TokenKind::Bang) {
                Ok(t.ends_line)
            } else {
                Err(ReaderError::Fault(Fault {
                    left,
                    kind: refusal(t.kind),
                }))
            }
        }
    }
}

#[tactic(auto, unfolding(crate::specs::MetadataBehindAt::marked_at))]
fn marked_at(alloc: Global, tokens: &mut Tokens) -> Result<Before, ReaderError>
    ensures { Returns (λ x. (x, tokens.new)) result (marked_at tokens.old) }
{
    let ends = mark_at(tokens)?;
    behind_mark_at(alloc, ends, tokens)
}

/// Reads a node whose name ends the line before, or a line of metadata that begins with a `!` alone.
#[tactic(auto, unfolding(crate::specs::MetadataBehindAt::node_yet_at))]
pub fn node_yet_at(alloc: Global, tokens: &mut Tokens) -> Result<Before, ReaderError>
    ensures { Returns (λ x. (x, tokens.new)) result (node_yet_at tokens.old) }
{
    if tokens.comes(TokenKind::Meta) {
        named_node_at(alloc, tokens)
    } else {
        marked_at(alloc, tokens)
    }
}

/// Reads what follows a name on the same line: a node, or the rest of the line.
#[tactic(auto, unfolding(crate::specs::MetadataBehindAt::node_or_line_at))]
fn node_or_line_at(alloc: Global, tokens: &mut Tokens) -> Result<Before, ReaderError>
    ensures { Returns (λ x. (x, tokens.new)) result (node_or_line_at tokens.old) }
{
    if tokens.comes(TokenKind::Meta) {
        named_node_at(alloc, tokens)
    } else if tokens.comes(TokenKind::Bang) {
        marked_at(alloc, tokens)
    } else {
        goes_on_plainly_at(alloc, tokens)?;
        Ok(Before::Item)
    }
}

/// Reads metadata behind the head of a declaration; the answer is what stands before what follows.
#[tactic(auto, unfolding(crate::specs::MetadataBehindAt::metadata_behind_at))]
pub fn metadata_behind_at(alloc: Global, tokens: &mut Tokens) -> Result<Before, ReaderError>
    ensures { Returns (λ x. (x, tokens.new)) result (metadata_behind_at tokens.old) }
{
    if meta_at(tokens)? {
        Ok(Before::Name)
    } else {
        node_or_line_at(alloc, tokens)
    }
}
