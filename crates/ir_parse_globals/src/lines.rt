//! Reads target lines and attribute groups (LangRef, "Data Layout", "Target Triple", "Attribute Groups").

ghost use Rattle.ir_parse_parts.specs.Readers.{Returns};
ghost use Rattle.ir_parse_operands.specs.Adding.{pushed_at};
ghost use Rattle.ir_parse_heads.specs.AttributesAt.{attribute_group_at};
ghost use Rattle.ir_parse_heads.specs.TargetsAt.{layout_line_at, triple_line_at};

use ir_parse_heads::{attribute_group_at, layout_line_at, triple_line_at};
use ir_parse_operands::push_item;
use ir_parse_parts::{Item, ReaderError, Tokens};
use std::alloc::Global;

/// Reads the layout of the target behind `target`, and adds it.
pub fn layout_line_into(
    alloc: Global,
    items: &mut Vec<Item>,
    tokens: &mut Tokens,
) -> Result<(), ReaderError>
    ensures { Returns (λ _. (items.new.items, tokens.new)) result (pushed_at items.old.items layout_line_at tokens.old) }
{
    let layout = layout_line_at(alloc, tokens)?;
    push_item(items, Item::Datalayout(layout))
}

/// Reads the triple of the target behind `target`, and adds it.
pub fn triple_line_into(
    alloc: Global,
    items: &mut Vec<Item>,
    tokens: &mut Tokens,
) -> Result<(), ReaderError>
    ensures { Returns (λ _. (items.new.items, tokens.new)) result (pushed_at items.old.items triple_line_at tokens.old) }
{
    let triple = triple_line_at(alloc, tokens)?;
    push_item(items, Item::Triple(triple))
}

/// Reads a group of attributes, `attributes #0 = { noinline }`, and adds it.
pub fn attribute_group_into(
    alloc: Global,
    items: &mut Vec<Item>,
    tokens: &mut Tokens,
) -> Result<(), ReaderError>
    ensures { Returns (λ _. (items.new.items, tokens.new)) result (pushed_at items.old.items attribute_group_at tokens.old) }
{
    let group = attribute_group_at(alloc, tokens)?;
    push_item(items, group)
}
