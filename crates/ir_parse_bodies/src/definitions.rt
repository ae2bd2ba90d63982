//! Reads definitions of functions (LangRef, "Functions").

ghost use Rattle.std.specs.Prelude.{◌≡◌, []};
ghost use Rattle.ir_parse_parts.specs.Readers.{Returns};
ghost use Rattle.ir_parse_operands.specs.Adding.{pushed_at};
ghost use Rattle.ir_parse_bodies.specs.Adding.{joined_at};
ghost use Rattle.ir_parse_bodies.specs.Blocks.{FURTHER_BLOCKS, INSTRUCTIONS, with_kept};
ghost use Rattle.ir_parse_bodies.specs.BlocksAt.{heading_at, braced_at, defined_at, definition_at};

use crate::blocks::{Blocks, blocks_into};
use ir_lex::TokenKind;
use ir_parse_heads::{Kept, Role, definition_attributes_at, head_at};
use ir_parse_operands::push_item;
use ir_parse_parts::{Block, Item, ReaderError, Tokens, done, expect};
use ir_tree::Rows;
use std::alloc::Global;

/// How many blocks may stand behind the first of a function.
#[tactic(auto, unfolding(crate::specs::Blocks::FURTHER_BLOCKS))]
fn further_blocks() -> usize
    ensures { result ≡ FURTHER_BLOCKS }
{
    65534
}

/// How many instructions the blocks of a function may have, but for terminators.
#[tactic(auto, unfolding(crate::specs::Blocks::INSTRUCTIONS))]
fn instructions() -> usize
    ensures { result ≡ INSTRUCTIONS }
{
    200000
}

/// A head with what is kept of the attributes behind it.
fn with_kept(head: ir_parse_parts::FunctionHeader, kept: Kept) -> ir_parse_parts::FunctionHeader
    ensures { result ≡ with_kept head kept }
{
    ir_parse_parts::FunctionHeader {
        linkage: head.linkage,
        result: head.result,
        name: head.name,
        params: head.params,
        noinline: kept.noinline,
        optnone: kept.optnone,
        groups: kept.groups,
    }
}

/// Reads what stands before the braces of a definition.
fn heading_at(
    alloc: Global,
    room: usize,
    tokens: &mut Tokens,
) -> Result<ir_parse_parts::FunctionHeader, ReaderError>
    ensures { Returns (λ x. (x, tokens.new)) result (heading_at room tokens.old) }
{
    expect(TokenKind::Define, tokens)?;
    let head = head_at(alloc, Role::Definition, room, tokens)?;
    let kept = definition_attributes_at(alloc, tokens)?;
    done(with_kept(head, kept))
}

/// Reads the blocks of a function, in their braces, and adds them.
#[tactic(auto, using(crate::proofs::Grouping::braced_is))]
fn braced_into(alloc: Global, blocks: &mut Blocks, tokens: &mut Tokens) -> Result<(), ReaderError>
    ensures { Returns (λ _. (blocks.new.list.items, tokens.new)) result (joined_at blocks.old.list.items braced_at tokens.old) }
{
    expect(TokenKind::OpenBrace, tokens)?;
    blocks_into(alloc, further_blocks(), instructions(), blocks, tokens)?;
    expect(TokenKind::CloseBrace, tokens)
}

/// Reads the blocks of a function, in their braces.
fn rows_at(alloc: Global, tokens: &mut Tokens) -> Result<Rows<Block>, ReaderError>
    ensures { Returns (λ x. (x, tokens.new)) result (joined_at [] braced_at tokens.old) }
{
    let mut blocks = Blocks::new(alloc);
    braced_into(alloc, &mut blocks, tokens)?;
    Ok(blocks.rows())
}

/// Reads the blocks of a function behind its head, and adds its definition.
#[tactic(auto, using(crate::proofs::Grouping::pushed_defined))]
fn defined_into(
    alloc: Global,
    head: ir_parse_parts::FunctionHeader,
    items: &mut Vec<Item>,
    tokens: &mut Tokens,
) -> Result<(), ReaderError>
    ensures { Returns (λ _. (items.new.items, tokens.new)) result (pushed_at items.old.items (defined_at head) tokens.old) }
{
    let blocks = rows_at(alloc, tokens)?;
    push_item(items, Item::Definition(head, blocks))
}

/// Reads a definition of a function, `define i32 @f(i32 %x) { .. }`, and adds it. Behind the first
/// parameter `room` others may stand; there may be 65,535 blocks, and 200,000 instructions, phis and
/// dropped calls among them and terminators not.
#[tactic(auto, using(crate::proofs::Grouping::pushed_definition))]
pub fn definition_into(
    alloc: Global,
    room: usize,
    items: &mut Vec<Item>,
    tokens: &mut Tokens,
) -> Result<(), ReaderError>
    ensures { Returns (λ _. (items.new.items, tokens.new)) result (pushed_at items.old.items (definition_at room) tokens.old) }
{
    let head = heading_at(alloc, room, tokens)?;
    defined_into(alloc, head, items, tokens)
}
