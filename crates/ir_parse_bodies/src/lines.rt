//! Reads instructions with the names of their results (LangRef, "Instruction Reference").

ghost use Rattle.std.specs.Prelude.{◌≡◌};
ghost use Rattle.ir_parse_parts.specs.Readers.{Returns};
ghost use Rattle.ir_parse_operands.specs.Listing.{put_at};
ghost use Rattle.ir_parse_bodies.specs.Adding.{kept_at};
ghost use Rattle.ir_parse_bodies.specs.LinesAt.{operation_at, attended_at, behind_at, line_behind_at, named_line_at, plain_line_at, line_at};
ghost use Rattle.ir_parse_bodies.specs.Listed.{listed_at};

use crate::calls::{calling_into, tail_calling_into};
use crate::instructions::{
    casting_into, comparing_into, dividing_into, extending_into, freezing_into, joining_into,
    loading_into, narrowing_into, on_two_into, selecting_into, storing_into, wrapping_into,
};
use crate::opcodes::{Opcode, Operation, begun_at, giving_at};
use crate::phis::phi_into;
use ir_lex::TokenKind;
use ir_parse_operands::{Listing, addressing_into, reserving_into};
use ir_parse_parts::{Name, ReaderError, Tokens, attachments_at, expect, local_at};
use ir_tree::{CastOp, Flags};
use std::alloc::Global;

/// Reads what follows the first word of an operation on values, but for its attachments.
fn operation_into(
    alloc: Global,
    operation: Operation,
    list: &mut Listing,
    tokens: &mut Tokens,
) -> Result<(), ReaderError>
    ensures { Returns (λ _. (list.new.lines.items, tokens.new)) result (put_at list.old (operation_at operation) tokens.old) }
{
    match operation {
        Operation::Wrapping(op) => wrapping_into(alloc, op, list, tokens),
        Operation::Dividing(op) => dividing_into(alloc, op, list, tokens),
        Operation::Plain(op) => {
            let flags = Flags {
                nuw: false,
                nsw: false,
                exact: false,
            };
            on_two_into(alloc, op, flags, list, tokens)
        }
        Operation::Or => joining_into(alloc, list, tokens),
        Operation::Icmp => comparing_into(alloc, list, tokens),
        Operation::Zext => extending_into(alloc, CastOp::Zext, list, tokens),
        Operation::Sext => casting_into(alloc, CastOp::Sext, list, tokens),
        Operation::Trunc => narrowing_into(alloc, CastOp::Trunc, list, tokens),
        Operation::Select => selecting_into(alloc, list, tokens),
        Operation::Freeze => freezing_into(alloc, list, tokens),
    }
}

/// Reads what follows the first word of an operation on values, its attachments too.
#[tactic(auto, using(crate::proofs::Listed::attended_listed))]
fn attended_into(
    alloc: Global,
    operation: Operation,
    list: &mut Listing,
    tokens: &mut Tokens,
) -> Result<(), ReaderError>
    ensures { Returns (λ _. (list.new.lines.items, tokens.new)) result (listed_at list.old (attended_at (operation_at operation)) tokens.old) }
{
    operation_into(alloc, operation, list, tokens)?;
    attachments_at(alloc, tokens)
}

/// Reads what follows the first word of an instruction, with the name of a result before it or not. A
/// call that is dropped adds no line.
#[tactic(auto, using(crate::proofs::Listed::some_listed))]
fn behind_into(
    alloc: Global,
    named: bool,
    opcode: Opcode,
    list: &mut Listing,
    tokens: &mut Tokens,
) -> Result<(), ReaderError>
    ensures { Returns (λ _. (list.new.lines.items, tokens.new)) result (listed_at list.old (behind_at named opcode) tokens.old) }
{
    match opcode {
        Opcode::Value(operation) => attended_into(alloc, operation, list, tokens),
        Opcode::Phi => phi_into(alloc, list, tokens),
        Opcode::Alloca => reserving_into(alloc, list, tokens),
        Opcode::Load => loading_into(alloc, list, tokens),
        Opcode::GetElementPtr => addressing_into(alloc, list, tokens),
        Opcode::Store => storing_into(alloc, list, tokens),
        Opcode::Tail => tail_calling_into(alloc, named, list, tokens),
        Opcode::Call => calling_into(alloc, named, list, tokens),
    }
}

/// Reads `= instr` behind the name of a result, and adds the line.
#[tactic(auto, unfolding(crate::specs::LinesAt::line_behind_at))]
fn line_behind_into(
    alloc: Global,
    name: Name,
    list: &mut Listing,
    tokens: &mut Tokens,
) -> Result<(), ReaderError>
    ensures { Returns (λ _. (list.new.lines.items, tokens.new)) result (kept_at list.old.lines.items (line_behind_at name) tokens.old) }
{
    list.line = name.line();
    list.name = Some(name);
    expect(TokenKind::Equals, tokens)?;
    let opcode = giving_at(tokens)?;
    behind_into(alloc, true, opcode, list, tokens)
}

#[tactic(auto, unfolding(crate::specs::LinesAt::named_line_at))]
fn named_line_into(
    alloc: Global,
    list: &mut Listing,
    tokens: &mut Tokens,
) -> Result<(), ReaderError>
    ensures { Returns (λ _. (list.new.lines.items, tokens.new)) result (kept_at list.old.lines.items named_line_at tokens.old) }
{
    let name = local_at(alloc, tokens)?;
    line_behind_into(alloc, name, list, tokens)
}

#[tactic(auto, unfolding(crate::specs::LinesAt::plain_line_at))]
fn plain_line_into(
    alloc: Global,
    list: &mut Listing,
    tokens: &mut Tokens,
) -> Result<(), ReaderError>
    ensures { Returns (λ _. (list.new.lines.items, tokens.new)) result (kept_at list.old.lines.items plain_line_at tokens.old) }
{
    let begun = begun_at(tokens)?;
    list.line = begun.line;
    list.name = None;
    behind_into(alloc, false, begun.opcode, list, tokens)
}

/// Reads an instruction with the name of its result, where it has one, and its attachments, and adds
/// the line, unless its call is dropped.
#[tactic(auto, unfolding(crate::specs::LinesAt::line_at))]
pub fn line_into(alloc: Global, list: &mut Listing, tokens: &mut Tokens) -> Result<(), ReaderError>
    ensures { Returns (λ _. (list.new.lines.items, tokens.new)) result (kept_at list.old.lines.items line_at tokens.old) }
{
    if tokens.comes(TokenKind::Local) {
        named_line_into(alloc, list, tokens)
    } else {
        plain_line_into(alloc, list, tokens)
    }
}
