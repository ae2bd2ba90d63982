//! Reads the items of a module one behind another (LangRef, "Module Structure").

ghost use Rattle.std.specs.Prelude.{◌≡◌, ◌∷◌, ◌++◌, [], OnOk, IfErr, None, true, false};
ghost use Rattle.ir_lex.specs.TokenKinds.{number};
ghost use Rattle.ir_parse_parts.specs.Alphabet.{contains, among};
ghost use Rattle.ir_tree.specs.declared.failure.Failure.TheVariants.{NoMemory};
ghost use Rattle.ir_parse_parts.specs.Readers.{Returns, next_is, pick};
ghost use Rattle.ir_parse_heads.specs.AttributesAt.{HEAD};
ghost use Rattle.ir_parse_heads.specs.TargetsAt.{target_line_at};
ghost use Rattle.ir_parse_parts.specs.Classes.{tokens};
ghost use Rattle.ir_parse_parts.specs.declared.places.Before.TheVariants as befores;
ghost use Rattle.ir_parse_operands.specs.Adding.{pushed_at};
ghost use Rattle.ir_parse_bodies.specs.BlocksAt.{definition_at};
ghost use Rattle.ir_parse_globals.specs.Variables.{NAMES};
ghost use Rattle.ir_parse_globals.specs.VariablesAt.{variable_line_at};
ghost use Rattle.ir_parse.specs.ItemForms.{declared, keep};
ghost use Rattle.ir_parse.specs.ItemFormsAt.{ITEM, NAMING, beginnings, unnamed_at, metadata_there_at, plainly_at, beside_at, attached_before_at, declaration_at, naming_at, named_within_at, there_at, items_at};
ghost use Rattle.ir_parse.specs.Putting.{behind_at};

use ir_lex::TokenKind;
use ir_parse_bodies::definition_into;
use ir_parse_globals::{
    attribute_group_into, layout_line_into, triple_line_into, type_line_into, variable_line_into,
};
use ir_parse_heads::{
    Role, comdat_line_at, head_at, head_attribute_at, is_attribute_word, source_line_at,
};
use ir_parse_operands::push;
use ir_parse_parts::{
    Before, Fault, Item, Position, ReaderError, TokenFault, Tokens, attached_at, expect,
    metadata_behind_at, metadata_line_at, node_yet_at,
};
use std::alloc::Global;

/// Reads a line on the target, and adds it: `target triple = "x86_64-pc-linux-gnu"`.
#[tactic(auto, unfolding(ir_parse_heads::specs::TargetsAt::target_line_at))]
fn target_line_into(
    alloc: Global,
    items: &mut Vec<Item>,
    tokens: &mut Tokens,
) -> Result<(), ReaderError>
    ensures { Returns (λ _. (items.new.items, tokens.new)) result (pushed_at items.old.items target_line_at tokens.old) }
{
    expect(TokenKind::Target, tokens)?;
    if tokens.comes(TokenKind::Datalayout) {
        layout_line_into(alloc, items, tokens)
    } else {
        triple_line_into(alloc, items, tokens)
    }
}

/// Reads an item that defines and declares no global name, and is no metadata; it is added, where it
/// is kept.
fn unnamed_into(
    alloc: Global,
    items: &mut Vec<Item>,
    tokens: &mut Tokens,
) -> Result<(), ReaderError>
    ensures { Returns (λ _. ((items.new.items, befores.Item), tokens.new)) result (behind_at items.old.items unnamed_at tokens.old) }
{
    if tokens.comes(TokenKind::SourceFilename) {
        source_line_at(tokens)
    } else if tokens.comes(TokenKind::Target) {
        target_line_into(alloc, items, tokens)
    } else if tokens.comes(TokenKind::ComdatName) {
        comdat_line_at(tokens)
    } else if tokens.comes(TokenKind::Local) {
        type_line_into(alloc, items, tokens)
    } else {
        attribute_group_into(alloc, items, tokens)
    }
}

/// Whether a token of this kind begins an attribute behind the head of a declaration.
fn begins_head_attribute(head: TokenKind) -> bool
    ensures { result ≡ contains HEAD (number head) }
{
    head.is(TokenKind::Group)
        || head.is(TokenKind::Align)
        || head.is(TokenKind::Str)
        || is_attribute_word(head)
}

/// Whether an attribute comes that may stand behind the head of a declaration.
fn comes_head_attribute(rest: &Tokens) -> bool
    ensures { result ≡ next_is (among tokens HEAD) rest.now }
{
    match rest.kind() {
        Some(head) => begins_head_attribute(head),
        None => false,
    }
}

/// Reads metadata, by what stands before it.
#[tactic(auto, unfolding(crate::specs::ItemFormsAt::left_out_at))]
fn metadata_there_at(
    alloc: Global,
    before: Before,
    tokens: &mut Tokens,
) -> Result<Before, ReaderError>
    ensures { Returns (λ b. ((None, b), tokens.new)) result (metadata_there_at before tokens.old) }
{
    match before {
        Before::Item => {
            metadata_line_at(alloc, tokens)?;
            Ok(Before::Item)
        }
        Before::Declaration => metadata_behind_at(alloc, tokens),
        Before::Name => node_yet_at(alloc, tokens),
    }
}

/// Whether an attribute comes behind the head of a declaration.
fn comes_attribute(before: Before, rest: &Tokens) -> bool
    ensures comes { result ≡ true → (before ≡ befores.Declaration) × (next_is (among tokens HEAD) rest.now ≡ true) }
    ensures other { result ≡ false → before ≡ befores.Declaration → next_is (among tokens HEAD) rest.now ≡ false }
{
    match before {
        Before::Declaration => comes_head_attribute(rest),
        Before::Item | Before::Name => false,
    }
}

/// Reads an item that defines and declares no global name and is no metadata, or an attribute behind
/// the head of a declaration.
#[tactic(auto, unfolding(crate::specs::Putting::behind_at, crate::specs::ItemFormsAt::attribute_behind_at))]
fn plainly_at(
    alloc: Global,
    before: Before,
    items: &mut Vec<Item>,
    tokens: &mut Tokens,
) -> Result<Before, ReaderError>
    ensures { Returns (λ b. ((items.new.items, b), tokens.new)) result (behind_at items.old.items (plainly_at before) tokens.old) }
{
    if comes_attribute(before, tokens) {
        head_attribute_at(alloc, tokens)?;
        Ok(Before::Declaration)
    } else {
        unnamed_into(alloc, items, tokens)?;
        Ok(Before::Item)
    }
}

/// Reads what defines and declares no global name, by what stands before it.
fn beside_at(
    alloc: Global,
    before: Before,
    items: &mut Vec<Item>,
    tokens: &mut Tokens,
) -> Result<Before, ReaderError>
    ensures { Returns (λ b. ((items.new.items, b), tokens.new)) result (behind_at items.old.items (beside_at before) tokens.old) }
{
    if tokens.comes_meta() {
        metadata_there_at(alloc, before, tokens)
    } else {
        plainly_at(alloc, before, items, tokens)
    }
}

/// Reads metadata that stands before the head of a declaration, and drops it.
#[tactic(auto, unfolding(crate::specs::ItemFormsAt::attached_before_at))]
fn attached_before_at(alloc: Global, tokens: &mut Tokens) -> Result<(), ReaderError>
    ensures { Returns (λ x. (tt, tokens.new)) result (attached_before_at tokens.old) }
{
    'each: while tokens.comes_meta() {
        attached_at(alloc, tokens)?;
    }
    Ok(())
}

/// Adds what a head declares; a lifetime marker isn't kept.
fn push_declared(
    items: &mut Vec<Item>,
    head: ir_parse_parts::FunctionHeader,
) -> Result<(), ReaderError>
    ensures pushed { OnOk result (items.new.items ≡ keep items.old.items (declared head)) }
    ensures memory { IfErr result (λ e. e ≡ NoMemory) }
{
    if head.name.token().kind.is(TokenKind::LifetimeMarker) {
        Ok(())
    } else {
        push(items, Item::Declaration(head))
    }
}

/// Reads a declaration up to the end of its parameters, `declare !dbg !5 i32 @f(ptr)`, and adds it,
/// where it is kept.
#[tactic(auto, unfolding(crate::specs::Putting::behind_at, crate::specs::ItemFormsAt::declaration_at))]
fn declaration_into(
    alloc: Global,
    room: usize,
    items: &mut Vec<Item>,
    tokens: &mut Tokens,
) -> Result<(), ReaderError>
    ensures { Returns (λ _. ((items.new.items, befores.Declaration), tokens.new)) result (behind_at items.old.items (declaration_at room) tokens.old) }
{
    expect(TokenKind::Declare, tokens)?;
    attached_before_at(alloc, tokens)?;
    let head = head_at(alloc, Role::Declaration, room, tokens)?;
    push_declared(items, head)
}

/// Whether a token of this kind names a variable.
fn begins_variable(head: TokenKind) -> bool
    ensures { result ≡ contains NAMES (number head) }
{
    matches!(head, TokenKind::Global | TokenKind::NumberedDefinition)
}

/// Whether a variable comes.
fn comes_variable(rest: &Tokens) -> bool
    ensures { result ≡ next_is (among tokens NAMES) rest.now }
{
    match rest.kind() {
        Some(head) => begins_variable(head),
        None => false,
    }
}

/// Whether a token of this kind begins an item that defines or declares a global name.
fn begins_naming(head: TokenKind) -> bool
    ensures { result ≡ contains NAMING (number head) }
{
    matches!(
        head,
        TokenKind::Global | TokenKind::NumberedDefinition | TokenKind::Declare | TokenKind::Define
    )
}

/// Whether an item comes that defines or declares a global name.
fn comes_naming(rest: &Tokens) -> bool
    ensures { result ≡ next_is (among tokens NAMING) rest.now }
{
    match rest.kind() {
        Some(head) => begins_naming(head),
        None => false,
    }
}

/// Reads a variable or the definition of a function, and adds it.
fn defining_into(
    alloc: Global,
    room: usize,
    items: &mut Vec<Item>,
    rest: &mut Tokens,
) -> Result<(), ReaderError>
    ensures { Returns (λ _. (items.new.items, rest.new)) result (pushed_at items.old.items (pick (among tokens NAMES) variable_line_at (definition_at room)) rest.old) }
{
    if comes_variable(rest) {
        variable_line_into(alloc, items, rest)
    } else {
        definition_into(alloc, room, items, rest)
    }
}

/// Reads an item that defines or declares a global name.
fn naming_at(
    alloc: Global,
    room: usize,
    items: &mut Vec<Item>,
    tokens: &mut Tokens,
) -> Result<Before, ReaderError>
    ensures { Returns (λ b. ((items.new.items, b), tokens.new)) result (behind_at items.old.items (naming_at room) tokens.old) }
{
    if tokens.comes(TokenKind::Declare) {
        declaration_into(alloc, room, items, tokens)?;
        Ok(Before::Declaration)
    } else {
        defining_into(alloc, room, items, tokens)?;
        Ok(Before::Item)
    }
}

fn named_at(
    alloc: Global,
    room: usize,
    names: usize,
    items: &mut Vec<Item>,
    tokens: &mut Tokens,
) -> Result<Position, ReaderError>
    ensures { Returns (λ at. ((items.new.items, at), tokens.new)) result (behind_at items.old.items (named_within_at room names) tokens.old) }
{
    if names == 0 {
        return Err(ReaderError::Fault(Fault {
            left: tokens.left(),
            kind: TokenFault::Limit,
        }));
    }
    let before = naming_at(alloc, room, items, tokens)?;
    Ok(Position {
        before,
        names: names - 1,
    })
}

/// Reads an item at its place. Behind the first parameter of a function `room` others may stand.
fn piece_at(
    alloc: Global,
    room: usize,
    at: Position,
    items: &mut Vec<Item>,
    tokens: &mut Tokens,
) -> Result<Position, ReaderError>
    ensures { Returns (λ next. ((items.new.items, next), tokens.new)) result (behind_at items.old.items (there_at room at) tokens.old) }
{
    if comes_naming(tokens) {
        named_at(alloc, room, at.names, items, tokens)
    } else {
        let before = beside_at(alloc, at.before, items, tokens)?;
        Ok(Position {
            before,
            names: at.names,
        })
    }
}

/// Whether a token of this kind begins an item.
fn begins_item(head: TokenKind) -> bool
    ensures { result ≡ contains ITEM (number head) }
{
    matches!(
        head,
        TokenKind::Meta
            | TokenKind::Bang
            | TokenKind::SourceFilename
            | TokenKind::Target
            | TokenKind::ComdatName
            | TokenKind::Local
            | TokenKind::Attributes
            | TokenKind::Global
            | TokenKind::NumberedDefinition
            | TokenKind::Declare
            | TokenKind::Define
    )
}

fn begins_there(before: Before, head: TokenKind) -> bool
    ensures { result ≡ contains (beginnings before) (number head) }
{
    match before {
        Before::Item => begins_item(head),
        Before::Declaration => begins_head_attribute(head) || begins_item(head),
        Before::Name => begins_item(head),
    }
}

/// Whether an item, or an attribute behind the head of a declaration, comes.
fn comes_there(before: Before, rest: &Tokens) -> bool
    ensures { result ≡ next_is (among tokens (beginnings before)) rest.now }
{
    match rest.kind() {
        Some(head) => begins_there(before, head),
        None => false,
    }
}

/// Reads items one behind another: of global names `names` at most, and behind the first parameter of
/// each function `room` at most. The list is empty before.
pub(crate) fn items_into(
    alloc: Global,
    room: usize,
    names: usize,
    items: &mut Vec<Item>,
    tokens: &mut Tokens,
) -> Result<(), ReaderError>
    requires { items.now.items ≡ [] }
    ensures { Returns (λ x. (items.new.items, tokens.new)) result (items_at room names tokens.old) }
{
    let mut at = Position {
        before: Before::Item,
        names,
    };
    'each: while comes_there(at.before, tokens) {
        at = piece_at(alloc, room, at, items, tokens)?;
    }
    Ok(())
}
