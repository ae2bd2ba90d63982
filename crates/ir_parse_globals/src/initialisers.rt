//! Reads initialisers (LangRef, "Global Variables", "Complex Constants"). Which aggregates are open is
//! kept in a list, so an initialiser may nest as deep as its text does.

ghost use Rattle.std.specs.Prelude.{◌≡◌, List, not, reverse, IfOk, IfSome};
ghost use Rattle.ir_lex.specs.TokenKinds.{number};
ghost use Rattle.ir_parse_parts.specs.Alphabet.{contains, among};
ghost use Rattle.ir_parse_parts.specs.Chained.{stops_here};
ghost use Rattle.ir_parse_parts.specs.Readers.{Returns, next_is};
ghost use Rattle.ir_parse_parts.specs.Classes.{tokens};
ghost use Rattle.ir_parse_parts.specs.Operands.{IsReg};
ghost use Rattle.ir_parse_operands.specs.ShapeFormsAt.{memory_shape_at};
ghost use Rattle.ir_parse_globals.specs.Initialisers.{scalar_of, aggregate_of, opening, closing_refusal, entered, outermost, is_none};
ghost use Rattle.ir_parse_globals.specs.declared.initialisers.Aggregate.{Aggregate};
ghost use Rattle.ir_parse_globals.specs.InitialisersAt.{bytes_at, aggregate_begin_at, beginning_at, mark_at, closing_at, part_shape_at, begun_at, piece_at, CLOSER, SHAPE, PART, begins_there, listed_at, parts_at, behind_at, initialiser_at};

use crate::constants::constant_at;
use crate::pairs::beside;
use ir_lex::TokenKind;
use ir_parse_operands::{brace_behind_angle_at, memory_shape_at};
use ir_parse_parts::{
    Fault, Init, InitHead, InitPart, Name, ReaderError, TokenFault, Tokens, Typed, WrittenShape,
    WrittenShapeNode, done, expect, memory_refusal, refusal,
};
use ir_tree::{Reg, Rows};
use std::alloc::{AllocFailed, Global};

/// What an initialiser with parts is of.
#[derive(Clone, Copy)]
pub enum Aggregate {
    /// `[` and `]`
    Array,
    /// `{` and `}`, or `<{` and `}>` where it is packed.
    Struct { packed: bool },
}

/// A part up to its own parts, and what those belong to, where it has parts.
#[derive(Drop)]
struct Part {
    part: InitPart,
    inner: Option<Aggregate>,
}

/// A part, or the end of an aggregate's parts, and whether the next part is the first of its aggregate.
#[derive(Drop)]
struct Piece {
    part: InitPart,
    first: bool,
}

/// The scalar that a shape is, if it is one.
pub fn scalar_of(shape: &WrittenShape) -> Option<Reg>
    ensures { result ≡ scalar_of shape.now }
{
    match shape.node() {
        WrittenShapeNode::Int(width) => Some(Reg::Int(*width)),
        WrittenShapeNode::Ptr => Some(Reg::Ptr),
        WrittenShapeNode::Array(_, _) => None,
        WrittenShapeNode::Struct(_, _) => None,
        WrittenShapeNode::Named(_) => None,
    }
}

/// What the parts of an initialiser belong to, where it has parts.
fn aggregate_of(head: &InitHead) -> Option<Aggregate>
    ensures { result ≡ aggregate_of head.now }
{
    match head {
        InitHead::Plain(_) => None,
        InitHead::Zeros => None,
        InitHead::Bytes(_) => None,
        InitHead::Number(_) => None,
        InitHead::Array => Some(Aggregate::Array),
        InitHead::Struct { packed } => Some(Aggregate::Struct { packed: *packed }),
    }
}

/// Takes a string of bytes.
#[tactic(auto, unfolding(ir_parse_parts::specs::Rules::is_among, crate::specs::InitialisersAt::bytes_at))]
fn bytes_at(alloc: Global, tokens: &mut Tokens) -> Result<InitHead, ReaderError>
    ensures { Returns (λ x. (x, tokens.new)) result (bytes_at tokens.old) }
{
    let left = tokens.left();
    match tokens.take() {
        None => Err(ReaderError::Fault(Fault {
            left,
            kind: TokenFault::Syntax,
        })),
        Some(t) => {
            if t.kind.is(TokenKind::CStr) {
                let name = Name::of(alloc, &t)?;
                done(InitHead::Bytes(name))
            } else {
                Err(ReaderError::Fault(Fault {
                    left,
                    kind: refusal(t.kind),
                }))
            }
        }
    }
}

/// The beginning of an initialiser of this aggregate.
fn opening(aggregate: Aggregate) -> InitHead
    ensures { result ≡ opening aggregate }
{
    match aggregate {
        Aggregate::Array => InitHead::Array,
        Aggregate::Struct { packed } => InitHead::Struct { packed },
    }
}

/// Takes what the parts of an aggregate stand behind.
#[tactic(auto, unfolding(crate::specs::InitialisersAt::aggregate_begin_at, crate::specs::InitialisersAt::array_begin_at, crate::specs::InitialisersAt::structure_begin_at, crate::specs::InitialisersAt::packed_begin_at))]
fn opening_at(tokens: &mut Tokens) -> Result<Aggregate, ReaderError>
    ensures { Returns (λ x. (opening x, tokens.new)) result (aggregate_begin_at tokens.old) }
{
    if tokens.comes(TokenKind::OpenBracket) {
        expect(TokenKind::OpenBracket, tokens)?;
        Ok(Aggregate::Array)
    } else if tokens.comes(TokenKind::OpenBrace) {
        expect(TokenKind::OpenBrace, tokens)?;
        Ok(Aggregate::Struct { packed: false })
    } else {
        expect(TokenKind::OpenAngle, tokens)?;
        brace_behind_angle_at(tokens)?;
        Ok(Aggregate::Struct { packed: true })
    }
}

/// Reads the beginning of an initialiser with parts.
fn aggregate_begin_at(tokens: &mut Tokens) -> Result<InitHead, ReaderError>
    ensures { Returns (λ x. (x, tokens.new)) result (aggregate_begin_at tokens.old) }
{
    let aggregate = opening_at(tokens)?;
    done(opening(aggregate))
}

/// Reads an initialiser up to its parts, for a scalar of this type, or for what is no scalar.
#[tactic(auto, unfolding(crate::specs::InitialisersAt::beginning_at, crate::specs::InitialisersAt::zeros_at))]
fn beginning_at(
    alloc: Global,
    scalar: Option<Reg>,
    tokens: &mut Tokens,
) -> Result<InitHead, ReaderError>
    requires { IfSome scalar IsReg }
    ensures { Returns (λ x. (x, tokens.new)) result (beginning_at scalar tokens.old) }
{
    if tokens.comes(TokenKind::ZeroInitializer) {
        expect(TokenKind::ZeroInitializer, tokens)?;
        Ok(InitHead::Zeros)
    } else if tokens.comes(TokenKind::CStr) {
        bytes_at(alloc, tokens)
    } else if tokens.comes_bracket() {
        aggregate_begin_at(tokens)
    } else {
        constant_at(alloc, scalar, tokens)
    }
}

/// Why a token can't stand where an aggregate must close, if none of its parts stands there yet, or if
/// one does.
fn closing_refusal(none: bool, head: TokenKind) -> TokenFault
    ensures { result ≡ closing_refusal none (number head) }
{
    if none {
        memory_refusal(head)
    } else {
        refusal(head)
    }
}

#[tactic(auto, unfolding(ir_parse_parts::specs::Rules::is_class))]
fn mark_at(none: bool, wanted: TokenKind, tokens: &mut Tokens) -> Result<(), ReaderError>
    ensures { Returns (λ x. (tt, tokens.new)) result (mark_at none wanted tokens.old) }
{
    let left = tokens.left();
    match tokens.take() {
        None => Err(ReaderError::Fault(Fault {
            left,
            kind: TokenFault::Syntax,
        })),
        Some(t) => {
            if t.kind.is(wanted) {
                Ok(())
            } else {
                Err(ReaderError::Fault(Fault {
                    left,
                    kind: closing_refusal(none, t.kind),
                }))
            }
        }
    }
}

/// Takes what closes an aggregate.
#[tactic(auto, unfolding(crate::specs::InitialisersAt::brace_at))]
fn closing_at(none: bool, aggregate: Aggregate, tokens: &mut Tokens) -> Result<(), ReaderError>
    ensures { Returns (λ x. (tt, tokens.new)) result (closing_at none aggregate tokens.old) }
{
    match aggregate {
        Aggregate::Array => mark_at(none, TokenKind::CloseBracket, tokens),
        Aggregate::Struct { packed } => {
            mark_at(none, TokenKind::CloseBrace, tokens)?;
            if packed {
                expect(TokenKind::CloseAngle, tokens)
            } else {
                Ok(())
            }
        }
    }
}

/// Whether what closes an aggregate comes.
fn comes_closing(aggregate: Aggregate, rest: &Tokens) -> bool
    ensures { result ≡ next_is (among tokens (CLOSER aggregate)) rest.now }
{
    match aggregate {
        Aggregate::Array => rest.comes(TokenKind::CloseBracket),
        Aggregate::Struct { packed: _ } => rest.comes(TokenKind::CloseBrace),
    }
}

/// Reads a shape of memory. If it is a scalar it has the type of a register.
pub fn shape_at(alloc: Global, tokens: &mut Tokens) -> Result<Typed, ReaderError>
    ensures exact { Returns (λ x. (x, tokens.new)) result (memory_shape_at tokens.old) }
    ensures ranged { IfOk result (λ x. IfSome (scalar_of x.shape) IsReg) }
{
    let shape = memory_shape_at(alloc, tokens)?;
    Ok(shape.typed)
}

/// Reads the shape of a part, with a comma before it where it is not the first.
fn part_shape_at(alloc: Global, first: bool, tokens: &mut Tokens) -> Result<Typed, ReaderError>
    ensures exact { Returns (λ x. (x, tokens.new)) result (part_shape_at first tokens.old) }
    ensures ranged { IfOk result (λ x. IfSome (scalar_of x.shape) IsReg) }
{
    if first {
        return shape_at(alloc, tokens);
    }
    expect(TokenKind::Comma, tokens)?;
    shape_at(alloc, tokens)
}

/// Reads a part up to its own parts, inside any aggregates.
fn part_at(alloc: Global, first: bool, tokens: &mut Tokens) -> Result<Part, ReaderError>
    ensures { (outer : List Aggregate) → Returns (λ x. ((x.part, entered x.inner outer), tokens.new)) result (begun_at first outer tokens.old) }
{
    let typed = part_shape_at(alloc, first, tokens)?;
    let head = beginning_at(alloc, scalar_of(&typed.shape), tokens)?;
    let inner = aggregate_of(&head);
    Ok(Part {
        part: InitPart::Typed { typed, head },
        inner,
    })
}

/// Opens an aggregate, where there is one; the answer is whether there is.
fn enter(
    aggregate: Option<Aggregate>,
    around: &mut Vec<Aggregate>,
) -> Result<bool, AllocFailed<Aggregate>>
    ensures { IfOk result (λ first. (first, reverse around.new.items) ≡ entered aggregate (reverse around.old.items)) }
{
    match aggregate {
        None => Ok(false),
        Some(inner) => {
            around.push(inner)?;
            Ok(true)
        }
    }
}

/// Reads a part up to its own parts inside these aggregates, the outermost first.
fn begun_at(
    alloc: Global,
    first: bool,
    around: &mut Vec<Aggregate>,
    tokens: &mut Tokens,
) -> Result<Piece, ReaderError>
    ensures { Returns (λ x. ((x.part, (x.first, reverse around.new.items)), tokens.new)) result (begun_at first (reverse around.old.items) tokens.old) }
{
    let begun = part_at(alloc, first, tokens)?;
    let first = enter(begun.inner, around)?;
    Ok(Piece {
        part: begun.part,
        first,
    })
}

/// Reads a part up to its own parts, or what closes the innermost of these aggregates, the outermost
/// first.
#[tactic(auto, unfolding(crate::specs::InitialisersAt::closed_at))]
fn piece_at(
    alloc: Global,
    first: bool,
    around: &mut Vec<Aggregate>,
    tokens: &mut Tokens,
) -> Result<Piece, ReaderError>
    ensures { Returns (λ x. ((x.part, (x.first, reverse around.new.items)), tokens.new)) result (piece_at first (reverse around.old.items) tokens.old) }
{
    let Some(inner) = around.pop() else {
        return begun_at(alloc, first, around, tokens);
    };
    if comes_closing(inner, tokens) {
        closing_at(false, inner, tokens)?;
        done(Piece {
            part: InitPart::End,
            first: false,
        })
    } else {
        around.push(inner)?;
        begun_at(alloc, first, around, tokens)
    }
}

fn begins_shape(head: TokenKind) -> bool
    ensures { result ≡ contains SHAPE (number head) }
{
    matches!(
        head,
        TokenKind::OpenBracket
            | TokenKind::OpenBrace
            | TokenKind::OpenAngle
            | TokenKind::Local
            | TokenKind::MemoryInteger
            | TokenKind::Ptr
    )
}

/// Whether a shape comes.
fn comes_shape(rest: &Tokens) -> bool
    ensures { result ≡ next_is (among tokens SHAPE) rest.now }
{
    match rest.kind() {
        Some(head) => begins_shape(head),
        None => false,
    }
}

/// Whether a part comes where it is the first, or a further one.
fn comes_part(first: bool, rest: &Tokens) -> bool
    ensures { result ≡ next_is (among tokens (PART first)) rest.now }
{
    if first {
        comes_shape(rest)
    } else {
        rest.comes(TokenKind::Comma)
    }
}

/// Whether the parts go on: where aggregates are open they do.
#[tactic(auto, using(crate::proofs::Reversed::some_open))]
fn goes_on(first: bool, around: &[Aggregate], rest: &Tokens) -> bool
    ensures { not result ≡ stops_here outermost begins_there (first, reverse around.now) rest.now }
{
    match around {
        [] => comes_part(first, rest),
        [_, ..] => true,
    }
}

/// Reads the parts of an aggregate, each before its own parts and their end.
fn listed_at(alloc: Global, tokens: &mut Tokens) -> Result<Vec<InitPart>, ReaderError>
    ensures { Returns (λ x. (x.items, tokens.new)) result (listed_at tokens.old) }
{
    let mut parts = Vec::new(alloc);
    let mut around = Vec::new(alloc);
    let mut first = true;
    'each: while goes_on(first, &around, tokens) {
        let piece = piece_at(alloc, first, &mut around, tokens)?;
        first = piece.first;
        parts.push(piece.part)?;
    }
    Ok(parts)
}

/// Whether there are no parts.
fn is_none(parts: &[InitPart]) -> bool
    ensures { result ≡ is_none parts.now }
{
    match parts {
        [] => true,
        [_, ..] => false,
    }
}

/// Reads the parts of an aggregate, and what closes it.
#[tactic(auto, unfolding(crate::specs::InitialisersAt::parts_at))]
fn parts_at(
    alloc: Global,
    whole: Aggregate,
    tokens: &mut Tokens,
) -> Result<Vec<InitPart>, ReaderError>
    ensures { Returns (λ x. (x.items, tokens.new)) result (parts_at whole tokens.old) }
{
    let mut parts = listed_at(alloc, tokens)?;
    closing_at(is_none(&parts), whole, tokens)?;
    parts.push(InitPart::End)?;
    done(parts)
}

/// Reads the parts behind the beginning of an initialiser, where it has parts.
fn behind_at(
    alloc: Global,
    whole: Option<Aggregate>,
    tokens: &mut Tokens,
) -> Result<Vec<InitPart>, ReaderError>
    ensures { Returns (λ x. (x.items, tokens.new)) result (behind_at whole tokens.old) }
{
    match whole {
        None => Ok(Vec::new(alloc)),
        Some(whole) => parts_at(alloc, whole, tokens),
    }
}

/// Reads the initialiser of a scalar of this type, or of what is no scalar: `[i8 1, i8 2]`.
#[tactic(auto, unfolding(crate::specs::InitialisersAt::initialiser_at))]
pub fn initialiser_at(
    alloc: Global,
    scalar: Option<Reg>,
    tokens: &mut Tokens,
) -> Result<Init, ReaderError>
    requires { IfSome scalar IsReg }
    ensures { Returns (λ x. (x, tokens.new)) result (initialiser_at scalar tokens.old) }
{
    let root = beginning_at(alloc, scalar, tokens)?;
    let parts = behind_at(alloc, aggregate_of(&root), tokens);
    let (root, parts) = beside(root, parts)?;
    done(Init {
        root,
        parts: Rows::of(parts),
    })
}
