//! Reads operands, with constant addresses among them (LangRef, "Constant Expressions"), which nest
//! as deep as the text does: the levels that are open are kept in a list.

ghost use Rattle.std.specs.Prelude.{◌≡◌, reverse, IfOk};
ghost use Rattle.ir_lex.specs.Tok.{tok};
ghost use Rattle.ir_lex.specs.declared.token_kind.TokenKind.TheVariants.{Comma};
ghost use Rattle.ir_lex.specs.TokenKinds.{number};
ghost use Rattle.ir_parse_parts.specs.Alphabet.{among, contains};
ghost use Rattle.ir_parse_parts.specs.Readers.{Returns, done, follow};
ghost use Rattle.ir_parse_parts.specs.Rules.{is_valued};
ghost use Rattle.ir_parse_parts.specs.Ahead.{STEPPING};
ghost use Rattle.ir_parse_parts.specs.Classes.{tokens, refusal, one_of_at, the_at};
ghost use Rattle.ir_parse_parts.specs.Literals.{IsWidth};
ghost use Rattle.ir_parse_parts.specs.Operands.{IsReg, global_named};
ghost use Rattle.ir_parse_operands.specs.Adding.{pushed_at};
ghost use Rattle.ir_parse_operands.specs.ShapeFormsAt.{memory_shape_at};
ghost use Rattle.ir_parse_operands.specs.Values.{GLOBAL, NUMBER, index_of, is_inbounds, or_inbounds};
ghost use Rattle.ir_parse_operands.specs.ValuesAt.{address_at, all_openings_at, argument_at, closing_at, closing_one_at, global_at, index_at, index_number_at, indices_at, opening_at, operand_at, pointed_at, pointer_at, stepping_at};

use crate::adding::push;
use crate::shapes::memory_shape_at;
use ir_lex::{Token, TokenKind};
use ir_parse_parts::{
    Address, Argument, Fault, Index, Level, Name, Operand, ReaderError, Steps, TokenFault, Tokens,
    Typed, done, expect, global_named, integer_at, literal, refusal, reg_at, simple_at,
    type_refusal,
};
use ir_tree::{Reg, Rows};
use std::alloc::{AllocError, Global};

/// Takes `ptr`.
#[tactic(auto, unfolding(ir_parse_parts::specs::Rules::is_class))]
pub fn pointer_at(tokens: &mut Tokens) -> Result<(), ReaderError>
    ensures { Returns (λ x. (tt, tokens.new)) result (pointer_at tokens.old) }
{
    let left = tokens.left();
    match tokens.take() {
        None => Err(ReaderError::Fault(Fault {
            left,
            kind: TokenFault::Syntax,
        })),
        Some(t) => {
            if t.kind.is(TokenKind::Ptr) {
                Ok(())
            } else {
                Err(ReaderError::Fault(Fault {
                    left,
                    kind: type_refusal(t.kind),
                }))
            }
        }
    }
}

/// Takes a flag of `getelementptr`; the answer is whether it is `inbounds`.
#[tactic(auto, unfolding(ir_parse_parts::specs::Rules::is_among))]
fn flag_at(tokens: &mut Tokens) -> Result<bool, ReaderError>
    ensures { Returns (λ x. (x, tokens.new)) result (one_of_at STEPPING is_inbounds tokens.old) }
{
    let left = tokens.left();
    match tokens.take() {
        None => Err(ReaderError::Fault(Fault {
            left,
            kind: TokenFault::Syntax,
        })),
        Some(t) => {
            if t.kind.is(TokenKind::Inbounds) {
                Ok(true)
            } else if t.kind.is(TokenKind::Nuw) || t.kind.is(TokenKind::Nusw) {
                Ok(false)
            } else {
                Err(ReaderError::Fault(Fault {
                    left,
                    kind: refusal(t.kind),
                }))
            }
        }
    }
}

fn or_inbounds(any: bool, one: bool) -> bool
    ensures { result ≡ or_inbounds any one }
{
    any || one
}

/// Reads the flags of `getelementptr`; the answer is whether `inbounds` is among them.
#[tactic(auto, unfolding(crate::specs::ValuesAt::stepping_at))]
pub fn stepping_at(tokens: &mut Tokens) -> Result<bool, ReaderError>
    ensures { Returns (λ x. (x, tokens.new)) result (stepping_at tokens.old) }
{
    let mut inbounds = false;
    'each: while tokens.comes_stepping() {
        let one = flag_at(tokens)?;
        inbounds = or_inbounds(inbounds, one);
    }
    Ok(inbounds)
}

#[tactic(auto, unfolding(ir_parse_parts::specs::Rules::is_valued))]
fn index_means(width: u8, t: &Token) -> Result<Index, TokenFault>
    requires { IsWidth width }
    ensures { result ≡ is_valued tokens refusal NUMBER (index_of width) (tok t.now) }
{
    if t.kind.is(TokenKind::Number) {
        match literal(width, t.text) {
            None => Err(TokenFault::Number),
            Some(bits) => Ok(Index {
                width,
                bits,
                line: t.line,
            }),
        }
    } else {
        Err(refusal(t.kind))
    }
}

pub fn index_number_at(width: u8, tokens: &mut Tokens) -> Result<Index, ReaderError>
    requires { IsWidth width }
    ensures { Returns (λ x. (x, tokens.new)) result (index_number_at width tokens.old) }
{
    let left = tokens.left();
    match tokens.take() {
        None => Err(ReaderError::Fault(Fault {
            left,
            kind: TokenFault::Syntax,
        })),
        Some(t) => match index_means(width, &t) {
            Ok(x) => Ok(x),
            Err(kind) => Err(ReaderError::Fault(Fault { left, kind })),
        },
    }
}

/// Reads `, iN Number`.
#[tactic(auto, unfolding(crate::specs::ValuesAt::index_at))]
fn index_at(tokens: &mut Tokens) -> Result<Index, ReaderError>
    ensures { Returns (λ x. (x, tokens.new)) result (index_at tokens.old) }
{
    expect(TokenKind::Comma, tokens)?;
    let width = integer_at(tokens)?;
    index_number_at(width, tokens)
}

/// Reads all indices that stand here.
fn indices_at(alloc: Global, tokens: &mut Tokens) -> Result<Vec<Index>, ReaderError>
    ensures { Returns (λ x. (x.items, tokens.new)) result (indices_at tokens.old) }
{
    let mut indices = Vec::new(alloc);
    'each: while tokens.comes(TokenKind::Comma) {
        let index = index_at(tokens)?;
        indices.push(index)?;
    }
    Ok(indices)
}

/// Reads the indices of a level, and the parenthesis behind them.
#[tactic(auto, unfolding(crate::specs::ValuesAt::closing_one_at))]
fn closing_one_at(alloc: Global, typed: Typed, tokens: &mut Tokens) -> Result<Level, ReaderError>
    ensures { Returns (λ x. (x, tokens.new)) result (closing_one_at typed tokens.old) }
{
    let indices = indices_at(alloc, tokens)?;
    expect(TokenKind::CloseParen, tokens)?;
    done(Level {
        typed,
        indices: Rows::of(indices),
    })
}

/// Reads what closes the levels that are open, the outermost first; the answer has the innermost
/// first.
fn closing_at(
    alloc: Global,
    mut outer: Vec<Typed>,
    tokens: &mut Tokens,
) -> Result<Vec<Level>, ReaderError>
    ensures { Returns (λ x. (x.items, tokens.new)) result (closing_at (reverse outer.items) tokens.old) }
{
    let mut levels = Vec::new(alloc);
    'each: while let Some(typed) = outer.pop() {
        let level = closing_one_at(alloc, typed, tokens)?;
        levels.push(level)?;
    }
    Ok(levels)
}

/// Reads the shape that an address is stepped by, and `, ptr`.
fn pointee_at(alloc: Global, tokens: &mut Tokens) -> Result<Typed, ReaderError>
    ensures { Returns (λ x. (x, tokens.new)) result (follow (memory_shape_at tokens.old) (λ x behind. follow (the_at Comma behind) (λ _ after. follow (pointer_at after) (λ _. done x)))) }
{
    let typed = memory_shape_at(alloc, tokens)?.typed;
    expect(TokenKind::Comma, tokens)?;
    pointer_at(tokens)?;
    Ok(typed)
}

/// Reads the beginning of a level, and adds it.
#[tactic(auto, unfolding(crate::specs::ValuesAt::opening_at, crate::specs::ValuesAt::opened_at))]
fn opening_into(
    alloc: Global,
    levels: &mut Vec<Typed>,
    tokens: &mut Tokens,
) -> Result<(), ReaderError>
    ensures { Returns (λ _. (levels.new.items, tokens.new)) result (pushed_at levels.old.items opening_at tokens.old) }
{
    expect(TokenKind::GetElementPtr, tokens)?;
    stepping_at(tokens)?;
    expect(TokenKind::OpenParen, tokens)?;
    let typed = pointee_at(alloc, tokens)?;
    push(levels, typed)
}

/// Reads the beginnings of levels, at least one.
fn all_openings_at(alloc: Global, tokens: &mut Tokens) -> Result<Vec<Typed>, ReaderError>
    ensures { Returns (λ x. (x.items, tokens.new)) result (all_openings_at tokens.old) }
{
    let mut levels = Vec::new(alloc);
    opening_into(alloc, &mut levels, tokens)?;
    'each: while tokens.comes(TokenKind::GetElementPtr) {
        opening_into(alloc, &mut levels, tokens)?;
    }
    Ok(levels)
}

/// Whether such a token is the name of a global.
fn is_global(kind: TokenKind) -> bool
    ensures { result ≡ contains GLOBAL (number kind) }
{
    kind.is(TokenKind::Global)
        || kind.is(TokenKind::NumberedGlobal)
        || kind.is(TokenKind::NumberedDefinition)
}

#[tactic(auto, unfolding(ir_parse_parts::specs::Rules::is_valued))]
fn global_means(alloc: Global, t: &Token) -> Result<Result<Name, TokenFault>, AllocError>
    ensures { IfOk result (λ x. x ≡ is_valued tokens refusal GLOBAL global_named (tok t.now)) }
{
    if !is_global(t.kind) {
        return Ok(Err(refusal(t.kind)));
    }
    match global_named(alloc, t)? {
        None => Ok(Err(TokenFault::Number)),
        Some(name) => Ok(Ok(name)),
    }
}

/// Takes the name of a global.
pub fn global_at(alloc: Global, tokens: &mut Tokens) -> Result<Name, ReaderError>
    ensures { Returns (λ x. (x, tokens.new)) result (global_at tokens.old) }
{
    let left = tokens.left();
    match tokens.take() {
        None => Err(ReaderError::Fault(Fault {
            left,
            kind: TokenFault::Syntax,
        })),
        Some(t) => match global_means(alloc, &t)? {
            Ok(x) => Ok(x),
            Err(kind) => Err(ReaderError::Fault(Fault { left, kind })),
        },
    }
}

/// Reads a constant address.
#[tactic(auto, unfolding(crate::specs::ValuesAt::reached_at), using(crate::proofs::Grouping::address_is))]
pub fn address_at(alloc: Global, tokens: &mut Tokens) -> Result<Operand, ReaderError>
    ensures { Returns (λ x. (x, tokens.new)) result (address_at tokens.old) }
{
    let outer = all_openings_at(alloc, tokens)?;
    let name = global_at(alloc, tokens)?;
    let levels = closing_at(alloc, outer, tokens)?;
    let steps = Steps {
        name,
        levels: Rows::of(levels),
    };
    let address = Address::of(alloc, steps)?;
    done(Operand::Address(address))
}

/// Reads an operand of a type. A number is a literal of it; `true` and `false` are those of `i1`.
#[tactic(auto, unfolding(crate::specs::ValuesAt::operand_at))]
pub fn operand_at(alloc: Global, reg: Reg, tokens: &mut Tokens) -> Result<Operand, ReaderError>
    requires { IsReg reg }
    ensures { Returns (λ x. (x, tokens.new)) result (operand_at reg tokens.old) }
{
    if tokens.comes(TokenKind::GetElementPtr) {
        address_at(alloc, tokens)
    } else {
        simple_at(alloc, reg, tokens)
    }
}

/// Reads `reg operand`.
#[tactic(auto, unfolding(crate::specs::ValuesAt::argument_at))]
pub fn argument_at(alloc: Global, tokens: &mut Tokens) -> Result<Argument, ReaderError>
    ensures { Returns (λ x. (x, tokens.new)) result (argument_at tokens.old) }
{
    let reg = reg_at(tokens)?;
    let operand = operand_at(alloc, reg, tokens)?;
    done(Argument { reg, operand })
}

/// Reads `, ptr operand`.
#[tactic(auto, unfolding(crate::specs::ValuesAt::pointed_at))]
pub fn pointed_at(alloc: Global, tokens: &mut Tokens) -> Result<Operand, ReaderError>
    ensures { Returns (λ x. (x, tokens.new)) result (pointed_at tokens.old) }
{
    expect(TokenKind::Comma, tokens)?;
    pointer_at(tokens)?;
    operand_at(alloc, Reg::Ptr, tokens)
}
