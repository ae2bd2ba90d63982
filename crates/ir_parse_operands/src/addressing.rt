//! Reads `alloca` and `getelementptr` (LangRef, "alloca Instruction", "getelementptr Instruction").

ghost use Rattle.std.specs.Prelude.{◌≡◌, ◌*◌, nat_le, true};
ghost use Rattle.ir_lex.specs.Tok.{tok};
ghost use Rattle.ir_parse_parts.specs.Alphabet.{among};
ghost use Rattle.ir_parse_parts.specs.Readers.{Returns};
ghost use Rattle.ir_parse_operands.specs.Adding.{gathered_at, pushed_at};
ghost use Rattle.ir_parse_operands.specs.Addressing.{keep, slots_fit};
ghost use Rattle.ir_parse_operands.specs.AddressingAt.{addressing_at, behind_comma_at, count_in_at, count_means, further_at, indices_at, many_slots_at, one_slot_at, reserving_at, slots_at, slots_behind_at, steps_at};
ghost use Rattle.ir_parse_parts.specs.Classes.{tokens};
ghost use Rattle.ir_parse_operands.specs.Extents.{all_nest_within, extent_of, nests_within};
ghost use Rattle.ir_parse_parts.specs.Literals.{IsWidth};
ghost use Rattle.ir_parse_operands.specs.Listing.{put_at};
ghost use Rattle.ir_parse_operands.specs.ShapeForms.{NUMBER};
ghost use Rattle.ir_parse_operands.specs.ValuesAt.{argument_at};
ghost use Rattle.ir_parse_parts.specs.Shapes.{parts_of};

use crate::adding::push;
use crate::alignments::{align_at, aligned_at};
use crate::listing::Listing;
use crate::shapes::{Measured, counted, memory_shape_at};
use crate::values::{argument_at, pointed_at, stepping_at};
use ir_lex::{Token, TokenKind};
use ir_parse_parts::{
    Argument, Fault, Instr, Operand, ReaderError, TokenFault, Tokens, WrittenShape,
    WrittenShapeNode, attached_at, done, expect, integer_at, refusal,
};
use ir_tree::Rows;
use std::alloc::Global;

/// How many of a shape an `alloca` takes, and their alignment in bytes, where it is written.
#[derive(Clone, Copy)]
pub struct Slots {
    pub count: u64,
    pub align: Option<u64>,
}

/// Whether a shape has at most so many levels of arrays and structures.
#[cycle(levels)]
fn nests_within(most: u32, shape: &WrittenShape) -> bool
    ensures { result ≡ nests_within most shape.now }
{
    match shape.node() {
        WrittenShapeNode::Int(_) | WrittenShapeNode::Ptr | WrittenShapeNode::Named(_) => true,
        WrittenShapeNode::Array(_, of) => 0 < most && nests_within(most - 1, of),
        WrittenShapeNode::Struct(_, parts) => 0 < most && all_nest_within(most - 1, parts),
    }
}

/// Whether each of these shapes has at most so many levels.
#[cycle(levels)]
fn all_nest_within(most: u32, parts: &[WrittenShape]) -> bool
    ensures { result ≡ all_nest_within most (parts_of parts.now) }
{
    'each: for part in parts {
        if !nests_within(most, part) {
            return false;
        }
    }
    true
}

/// Whether so many of this size are within the limit on bytes.
fn is_within(count: u64, size: u64) -> bool
    ensures { result ≡ nat_le (count * size) 2147483648 }
{
    match count.checked_mul(size) {
        None => false,
        Some(bytes) => bytes <= 2147483648,
    }
}

/// Whether an array of so many of a shape is within the limits; a count of 1 makes none.
fn slots_fit(shape: &Measured, count: u64) -> bool
    requires { shape.now.extent ≡ extent_of shape.now.typed.shape }
    ensures { result ≡ slots_fit shape.now.typed.shape count }
{
    count == 1 || nests_within(31, &shape.typed.shape) && is_within(count, shape.extent.size)
}

/// The count that a literal is, of so many bits, where it is within the limits.
fn fitting_count(shape: &Measured, width: u8, t: &Token) -> Result<u64, TokenFault>
    requires measured { shape.now.extent ≡ extent_of shape.now.typed.shape }
    requires ranged { IsWidth width }
    requires number { among tokens NUMBER (tok t.now) ≡ true }
    ensures { result ≡ count_means (slots_fit shape.now.typed.shape) width (tok t.now) }
{
    match counted(width, t.text) {
        None => Err(TokenFault::Number),
        Some(count) => {
            if slots_fit(shape, count) {
                Ok(count)
            } else {
                Err(TokenFault::Limit)
            }
        }
    }
}

#[tactic(auto, unfolding(crate::specs::AddressingAt::count_means, ir_parse_parts::specs::Rules::is_valued))]
fn count_means(shape: &Measured, width: u8, t: &Token) -> Result<u64, TokenFault>
    requires measured { shape.now.extent ≡ extent_of shape.now.typed.shape }
    requires ranged { IsWidth width }
    ensures { result ≡ count_means (slots_fit shape.now.typed.shape) width (tok t.now) }
{
    if t.kind.is(TokenKind::Number) {
        fitting_count(shape, width, t)
    } else {
        Err(refusal(t.kind))
    }
}

/// Takes a count of so many bits, from 0 on, of this shape.
fn count_in_at(shape: &Measured, width: u8, tokens: &mut Tokens) -> Result<u64, ReaderError>
    requires measured { shape.now.extent ≡ extent_of shape.now.typed.shape }
    requires ranged { IsWidth width }
    ensures { Returns (λ x. (x, tokens.new)) result (count_in_at (slots_fit shape.now.typed.shape) width tokens.old) }
{
    let left = tokens.left();
    match tokens.take() {
        None => Err(ReaderError::Fault(Fault {
            left,
            kind: TokenFault::Syntax,
        })),
        Some(t) => match count_means(shape, width, &t) {
            Ok(x) => Ok(x),
            Err(kind) => Err(ReaderError::Fault(Fault { left, kind })),
        },
    }
}

/// Reads `iN Number [, align N]` and the attachments.
#[tactic(auto, unfolding(crate::specs::AddressingAt::many_slots_at))]
fn many_slots_at(alloc: Global, shape: &Measured, tokens: &mut Tokens) -> Result<Slots, ReaderError>
    requires { shape.now.extent ≡ extent_of shape.now.typed.shape }
    ensures { Returns (λ x. (x, tokens.new)) result (many_slots_at (slots_fit shape.now.typed.shape) tokens.old) }
{
    let width = integer_at(tokens)?;
    let count = count_in_at(shape, width, tokens)?;
    let align = align_at(alloc, tokens)?;
    Ok(Slots { count, align })
}

/// Reads `align N`, or an attachment, and the attachments.
#[tactic(auto, unfolding(crate::specs::AddressingAt::one_slot_at))]
fn one_slot_at(alloc: Global, tokens: &mut Tokens) -> Result<Slots, ReaderError>
    ensures { Returns (λ x. (x, tokens.new)) result (one_slot_at tokens.old) }
{
    let align = aligned_at(alloc, tokens)?;
    Ok(Slots { count: 1, align })
}

/// Reads `iN Number [, align N]` or `align N`, and the attachments.
fn slots_at(alloc: Global, shape: &Measured, tokens: &mut Tokens) -> Result<Slots, ReaderError>
    requires { shape.now.extent ≡ extent_of shape.now.typed.shape }
    ensures { Returns (λ x. (x, tokens.new)) result (slots_at (slots_fit shape.now.typed.shape) tokens.old) }
{
    if tokens.comes_aligned() {
        one_slot_at(alloc, tokens)
    } else {
        many_slots_at(alloc, shape, tokens)
    }
}

/// Reads `[, iN Number] [, align N]` and the attachments.
#[tactic(auto, unfolding(crate::specs::AddressingAt::slots_behind_at))]
fn slots_behind_at(
    alloc: Global,
    shape: &Measured,
    tokens: &mut Tokens,
) -> Result<Slots, ReaderError>
    requires { shape.now.extent ≡ extent_of shape.now.typed.shape }
    ensures { Returns (λ x. (x, tokens.new)) result (slots_behind_at (slots_fit shape.now.typed.shape) tokens.old) }
{
    if tokens.comes(TokenKind::Comma) {
        expect(TokenKind::Comma, tokens)?;
        slots_at(alloc, shape, tokens)
    } else {
        Ok(Slots {
            count: 1,
            align: None,
        })
    }
}

/// Reads what follows `alloca`.
#[tactic(auto, unfolding(crate::specs::AddressingAt::reserving_at))]
pub fn reserving_into(
    alloc: Global,
    list: &mut Listing,
    tokens: &mut Tokens,
) -> Result<(), ReaderError>
    ensures { Returns (λ _. (list.new.lines.items, tokens.new)) result (put_at list.old reserving_at tokens.old) }
{
    let shape = memory_shape_at(alloc, tokens)?;
    let slots = slots_behind_at(alloc, &shape, tokens)?;
    list.put(Instr::Alloca {
        typed: shape.typed,
        count: slots.count,
        align: slots.align,
    })
}

/// Reads an index, and adds it.
fn argument_into(
    alloc: Global,
    indices: &mut Vec<Argument>,
    tokens: &mut Tokens,
) -> Result<(), ReaderError>
    ensures { Returns (λ _. (indices.new.items, tokens.new)) result (pushed_at indices.old.items argument_at tokens.old) }
{
    let argument = argument_at(alloc, tokens)?;
    push(indices, argument)
}

/// Reads what follows a comma behind an index, or behind an attachment: an index, which is added, or an
/// attachment, behind which only attachments follow. Returns whether it is an attachment.
#[tactic(auto, unfolding(crate::specs::AddressingAt::attaching_at, crate::specs::AddressingAt::indexing_at))]
fn behind_comma_into(
    alloc: Global,
    attached: bool,
    indices: &mut Vec<Argument>,
    tokens: &mut Tokens,
) -> Result<bool, ReaderError>
    ensures { Returns (λ attached. ((indices.new.items, attached), tokens.new)) result (gathered_at keep indices.old.items (behind_comma_at attached) tokens.old) }
{
    if attached {
        attached_at(alloc, tokens)?;
        return Ok(true);
    }
    if tokens.comes_meta() {
        attached_at(alloc, tokens)?;
        Ok(true)
    } else {
        argument_into(alloc, indices, tokens)?;
        Ok(false)
    }
}

#[tactic(auto, unfolding(crate::specs::AddressingAt::further_at))]
fn further_into(
    alloc: Global,
    attached: bool,
    indices: &mut Vec<Argument>,
    tokens: &mut Tokens,
) -> Result<bool, ReaderError>
    ensures { Returns (λ attached. ((indices.new.items, attached), tokens.new)) result (gathered_at keep indices.old.items (further_at attached) tokens.old) }
{
    expect(TokenKind::Comma, tokens)?;
    behind_comma_into(alloc, attached, indices, tokens)
}

/// Reads the indices, and the attachments.
#[tactic(auto, unfolding(crate::specs::AddressingAt::indices_at))]
fn indices_at(alloc: Global, tokens: &mut Tokens) -> Result<Vec<Argument>, ReaderError>
    ensures { Returns (λ x. (x.items, tokens.new)) result (indices_at tokens.old) }
{
    let mut indices = Vec::new(alloc);
    let mut attached = false;
    'each: while tokens.comes(TokenKind::Comma) {
        attached = further_into(alloc, attached, &mut indices, tokens)?;
    }
    Ok(indices)
}

/// The address that a `getelementptr` steps from, and the indices that it steps by.
#[derive(Drop)]
struct Steps {
    base: Operand,
    indices: Vec<Argument>,
}

/// Reads `, ptr operand` and the indices, behind a shape.
#[tactic(auto, unfolding(crate::specs::AddressingAt::steps_at))]
fn steps_at(alloc: Global, tokens: &mut Tokens) -> Result<Steps, ReaderError>
    ensures { Returns (λ x. ((x.base, x.indices.items), tokens.new)) result (steps_at tokens.old) }
{
    let base = pointed_at(alloc, tokens)?;
    let indices = indices_at(alloc, tokens)?;
    done(Steps { base, indices })
}

/// Reads what follows `getelementptr`.
pub fn addressing_into(
    alloc: Global,
    list: &mut Listing,
    tokens: &mut Tokens,
) -> Result<(), ReaderError>
    ensures { Returns (λ _. (list.new.lines.items, tokens.new)) result (put_at list.old addressing_at tokens.old) }
{
    let inbounds = stepping_at(tokens)?;
    let typed = memory_shape_at(alloc, tokens)?.typed;
    let steps = steps_at(alloc, tokens)?;
    list.put(Instr::Address {
        inbounds,
        typed,
        base: steps.base,
        indices: Rows::of(steps.indices),
    })
}
