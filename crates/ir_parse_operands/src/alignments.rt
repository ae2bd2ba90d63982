//! Reads alignments behind addresses (LangRef, "load Instruction", "alloca Instruction").

ghost use Rattle.ir_parse_parts.specs.Readers.{Returns};
ghost use Rattle.ir_parse_operands.specs.AlignmentsAt.{align_at, aligned_at};

use ir_lex::TokenKind;
use ir_parse_parts::{ReaderError, Tokens, alignment_at, attached_at, attachments_at, expect};
use std::alloc::Global;

/// Reads what follows the comma behind an address: an alignment, or an attachment.
#[tactic(auto, unfolding(crate::specs::AlignmentsAt::aligned_at))]
pub fn aligned_at(alloc: Global, tokens: &mut Tokens) -> Result<Option<u64>, ReaderError>
    ensures { Returns (λ x. (x, tokens.new)) result (aligned_at tokens.old) }
{
    if tokens.comes(TokenKind::Align) {
        expect(TokenKind::Align, tokens)?;
        let n = alignment_at(tokens)?;
        attachments_at(alloc, tokens)?;
        Ok(Some(n))
    } else {
        attached_at(alloc, tokens)?;
        attachments_at(alloc, tokens)?;
        Ok(None)
    }
}

/// Reads the alignment behind an address, if one stands there, and the attachments.
#[tactic(auto, unfolding(crate::specs::AlignmentsAt::align_at))]
pub fn align_at(alloc: Global, tokens: &mut Tokens) -> Result<Option<u64>, ReaderError>
    ensures { Returns (λ x. (x, tokens.new)) result (align_at tokens.old) }
{
    if tokens.comes(TokenKind::Comma) {
        expect(TokenKind::Comma, tokens)?;
        aligned_at(alloc, tokens)
    } else {
        Ok(None)
    }
}
