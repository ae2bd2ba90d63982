//! Reads type definitions (LangRef, "Structure Type", "Opaque Structure Types").

ghost use Rattle.std.specs.Prelude.{◌≡◌};
ghost use Rattle.ir_parse_parts.specs.Readers.{Returns};
ghost use Rattle.ir_parse_operands.specs.Adding.{pushed_at};
ghost use Rattle.ir_parse_globals.specs.TypeDefinitionsAt.{defined_at, type_line_at, type_name_at};

use ir_lex::TokenKind;
use ir_parse_operands::{memory_shape_at, push_item};
use ir_parse_parts::{Item, Name, ReaderError, Tokens, Typed, done, expect, local_at};
use std::alloc::Global;

/// Reads what a type name stands for: a shape, or nothing where it is opaque.
#[tactic(auto, unfolding(crate::specs::TypeDefinitionsAt::defined_at))]
fn defined_at(alloc: Global, tokens: &mut Tokens) -> Result<Option<Typed>, ReaderError>
    ensures { Returns (λ x. (x, tokens.new)) result (defined_at tokens.old) }
{
    if tokens.comes(TokenKind::Opaque) {
        expect(TokenKind::Opaque, tokens)?;
        Ok(None)
    } else {
        let shape = memory_shape_at(alloc, tokens)?;
        done(Some(shape.typed))
    }
}

/// Reads what stands before what a type name stands for: the name.
fn type_name_at(alloc: Global, tokens: &mut Tokens) -> Result<Name, ReaderError>
    ensures { Returns (λ x. (x, tokens.new)) result (type_name_at tokens.old) }
{
    let name = local_at(alloc, tokens)?;
    expect(TokenKind::Equals, tokens)?;
    expect(TokenKind::Type, tokens)?;
    Ok(name)
}

/// Reads a type definition, `%pair = type { i32, ptr }`, and adds it. A type name that is a number is
/// one below `2^32`, and the shape is one of memory.
#[tactic(auto, using(crate::proofs::Grouping::type_line_is))]
pub fn type_line_into(
    alloc: Global,
    items: &mut Vec<Item>,
    tokens: &mut Tokens,
) -> Result<(), ReaderError>
    ensures { Returns (λ _. (items.new.items, tokens.new)) result (pushed_at items.old.items type_line_at tokens.old) }
{
    let name = type_name_at(alloc, tokens)?;
    let typed = defined_at(alloc, tokens)?;
    push_item(items, Item::Type(name, typed))
}
