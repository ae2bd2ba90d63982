//! Reads metadata, which is dropped (LangRef, "Metadata").

ghost use Rattle.std.specs.Prelude.{◌≡◌};
ghost use Rattle.ir_parse_parts.specs.Alphabet.{among};
ghost use Rattle.ir_parse_parts.specs.Readers.{Returns, next_is};
ghost use Rattle.ir_parse_parts.specs.Classes.{tokens, one_of_at};
ghost use Rattle.ir_parse_parts.specs.Metadata.{META, ends_line};
ghost use Rattle.ir_parse_parts.specs.MetadataAt.{node_at, attached_at, attachment_at, attachments_at, rest_of_line_at, metadata_line_at};

use crate::brackets::{Bracket, BracketMove, group_at, move_of};
use crate::terminals::{expect, refusal};
use crate::tokens::Tokens;
use crate::{Fault, ReaderError, TokenFault};
use ir_lex::TokenKind;
use std::alloc::Global;

/// Takes a name of metadata or a `!`; the answer is whether its line ends behind it.
#[tactic(auto, unfolding(crate::specs::Rules::is_among))]
pub fn meta_at(tokens: &mut Tokens) -> Result<bool, ReaderError>
    ensures { Returns (λ x. (x, tokens.new)) result (one_of_at META ends_line tokens.old) }
{
    let left = tokens.left();
    match tokens.take() {
        None => Err(ReaderError::Fault(Fault {
            left,
            kind: TokenFault::Syntax,
        })),
        Some(t) => {
            if matches!(t.kind, TokenKind::Meta | TokenKind::Bang) {
                Ok(t.ends_line)
            } else {
                Err(ReaderError::Fault(Fault {
                    left,
                    kind: refusal(t.kind),
                }))
            }
        }
    }
}

/// Reads a node: `!4`, `!DIExpression()`, `!{ .. }`, `!(..)`.
#[tactic(auto, unfolding(crate::specs::MetadataAt::node_at))]
fn node_at(alloc: Global, tokens: &mut Tokens) -> Result<(), ReaderError>
    ensures { Returns (λ x. (tt, tokens.new)) result (node_at tokens.old) }
{
    if tokens.comes(TokenKind::Meta) {
        expect(TokenKind::Meta, tokens)?;
        if tokens.comes(TokenKind::OpenParen) {
            group_at(alloc, Bracket::Paren, tokens)?;
        }
        Ok(())
    } else {
        expect(TokenKind::Bang, tokens)?;
        if tokens.comes(TokenKind::OpenBrace) {
            group_at(alloc, Bracket::Curly, tokens)
        } else {
            group_at(alloc, Bracket::Paren, tokens)
        }
    }
}

/// Reads an attachment without its comma: `!dbg !4`.
#[tactic(auto, unfolding(crate::specs::MetadataAt::attached_at))]
pub fn attached_at(alloc: Global, tokens: &mut Tokens) -> Result<(), ReaderError>
    ensures { Returns (λ x. (tt, tokens.new)) result (attached_at tokens.old) }
{
    meta_at(tokens)?;
    node_at(alloc, tokens)
}

/// Reads an attachment: `, !dbg !4`.
#[tactic(auto, unfolding(crate::specs::MetadataAt::attachment_at))]
fn attachment_at(alloc: Global, tokens: &mut Tokens) -> Result<(), ReaderError>
    ensures { Returns (λ x. (tt, tokens.new)) result (attachment_at tokens.old) }
{
    expect(TokenKind::Comma, tokens)?;
    attached_at(alloc, tokens)
}

/// Reads all attachments that stand here.
#[tactic(auto, unfolding(crate::specs::MetadataAt::attachments_at))]
pub fn attachments_at(alloc: Global, tokens: &mut Tokens) -> Result<(), ReaderError>
    ensures { Returns (λ x. (tt, tokens.new)) result (attachments_at tokens.old) }
{
    'each: while tokens.comes(TokenKind::Comma) {
        attachment_at(alloc, tokens)?;
    }
    Ok(())
}

/// Reads what stands behind a token of a line of metadata at whose end no bracket is open, unless the
/// line ends there. The brackets that are open are kept, the outermost first.
pub fn rest_of_line_at(alloc: Global, ends: bool, tokens: &mut Tokens) -> Result<(), ReaderError>
    ensures { Returns (λ x. (tt, tokens.new)) result (rest_of_line_at ends tokens.old) }
{
    let mut open = Vec::new(alloc);
    let mut ended = ends;
    'each: while !ended {
        let left = tokens.left();
        let Some(t) = tokens.take() else {
            return Err(ReaderError::Fault(Fault {
                left,
                kind: TokenFault::Syntax,
            }));
        };
        match move_of(t.kind) {
            BracketMove::Opens(b) => open.push(b)?,
            BracketMove::Closes(b) => match open.pop() {
                Some(inner) if inner.same(b) => {}
                _ => {
                    return Err(ReaderError::Fault(Fault {
                        left,
                        kind: TokenFault::Syntax,
                    }));
                }
            },
            BracketMove::Stays => {}
        }
        ended = t.ends_line && open.is_empty();
    }
    Ok(())
}

/// Reads a line of metadata: `!0 = !{i32 1}`, up to the first line end at which no bracket is open.
#[tactic(auto, unfolding(crate::specs::MetadataAt::metadata_line_at))]
pub fn metadata_line_at(alloc: Global, tokens: &mut Tokens) -> Result<(), ReaderError>
    ensures { Returns (λ x. (tt, tokens.new)) result (metadata_line_at tokens.old) }
{
    let ends = meta_at(tokens)?;
    rest_of_line_at(alloc, ends, tokens)
}
