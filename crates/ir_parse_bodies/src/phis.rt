//! Reads phis (LangRef, "phi Instruction").

ghost use Rattle.std.specs.Prelude.{◌≡◌};
ghost use Rattle.ir_parse_parts.specs.Readers.{Returns};
ghost use Rattle.ir_parse_parts.specs.Operands.{IsReg};
ghost use Rattle.ir_parse_operands.specs.Adding.{gathered_at};
ghost use Rattle.ir_parse_operands.specs.Listing.{put_at};
ghost use Rattle.ir_parse_bodies.specs.Phis.{keep};
ghost use Rattle.ir_parse_bodies.specs.PhisAt.{incoming_at, behind_comma_at, further_at, all_entries_at, phi_at};

use ir_lex::TokenKind;
use ir_parse_operands::{Listing, operand_at, push};
use ir_parse_parts::{
    Incoming, Instr, ReaderError, Tokens, attached_at, done, expect, local_at, reg_at,
};
use ir_tree::{Reg, Rows};
use std::alloc::Global;

/// Reads `[ operand , Local ]`.
#[tactic(auto, unfolding(crate::specs::PhisAt::incoming_at))]
fn incoming_at(alloc: Global, reg: Reg, tokens: &mut Tokens) -> Result<Incoming, ReaderError>
    requires { IsReg reg }
    ensures { Returns (λ x. (x, tokens.new)) result (incoming_at reg tokens.old) }
{
    expect(TokenKind::OpenBracket, tokens)?;
    let value = operand_at(alloc, reg, tokens)?;
    expect(TokenKind::Comma, tokens)?;
    let from = local_at(alloc, tokens)?;
    expect(TokenKind::CloseBracket, tokens)?;
    done(Incoming { value, from })
}

/// Reads what follows a comma behind an entry, or behind an attachment: an entry, which is added, or an
/// attachment, behind which only attachments follow. Returns whether it is an attachment.
#[tactic(auto, unfolding(crate::specs::PhisAt::attaching_at, crate::specs::PhisAt::entering_at))]
fn behind_comma_into(
    alloc: Global,
    reg: Reg,
    attached: bool,
    entries: &mut Vec<Incoming>,
    tokens: &mut Tokens,
) -> Result<bool, ReaderError>
    requires { IsReg reg }
    ensures { Returns (λ attached. ((entries.new.items, attached), tokens.new)) result (gathered_at keep entries.old.items (behind_comma_at reg attached) tokens.old) }
{
    if attached {
        attached_at(alloc, tokens)?;
        return Ok(true);
    }
    if tokens.comes_meta() {
        attached_at(alloc, tokens)?;
        Ok(true)
    } else {
        let incoming = incoming_at(alloc, reg, tokens)?;
        push(entries, incoming)?;
        Ok(false)
    }
}

#[tactic(auto, unfolding(crate::specs::PhisAt::further_at))]
fn further_into(
    alloc: Global,
    reg: Reg,
    attached: bool,
    entries: &mut Vec<Incoming>,
    tokens: &mut Tokens,
) -> Result<bool, ReaderError>
    requires { IsReg reg }
    ensures { Returns (λ attached. ((entries.new.items, attached), tokens.new)) result (gathered_at keep entries.old.items (further_at reg attached) tokens.old) }
{
    expect(TokenKind::Comma, tokens)?;
    behind_comma_into(alloc, reg, attached, entries, tokens)
}

/// Reads the entries, at least one, and the attachments.
#[tactic(auto, unfolding(crate::specs::PhisAt::entries_at))]
fn all_entries_at(
    alloc: Global,
    reg: Reg,
    tokens: &mut Tokens,
) -> Result<Vec<Incoming>, ReaderError>
    requires { IsReg reg }
    ensures { Returns (λ x. (x.items, tokens.new)) result (all_entries_at reg tokens.old) }
{
    let mut entries = Vec::new(alloc);
    let first = incoming_at(alloc, reg, tokens)?;
    push(&mut entries, first)?;
    let mut attached = false;
    'each: while tokens.comes(TokenKind::Comma) {
        attached = further_into(alloc, reg, attached, &mut entries, tokens)?;
    }
    Ok(entries)
}

/// Reads what follows `phi`.
#[tactic(auto, unfolding(crate::specs::PhisAt::phi_at, crate::specs::PhisAt::phi_of_at), using(crate::proofs::Grouping::phi_of_is))]
pub fn phi_into(alloc: Global, list: &mut Listing, tokens: &mut Tokens) -> Result<(), ReaderError>
    ensures { Returns (λ _. (list.new.lines.items, tokens.new)) result (put_at list.old phi_at tokens.old) }
{
    let reg = reg_at(tokens)?;
    let incoming = Rows::of(all_entries_at(alloc, reg, tokens)?);
    list.put(Instr::Phi { reg, incoming })
}
