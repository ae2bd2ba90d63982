//! Reads shapes (LangRef, "Structure Type", "Array Type", "Opaque Structure Types"). How deep a shape
//! may nest and how large it may be is handed down to its parts, so the first token that passes a
//! limit is refused.

ghost use Rattle.std.specs.Prelude.{◌≡◌, ◌*◌, ◌≤◌, true, [], ◌∷◌, ◌++◌, IfOk};
ghost use Rattle.ir_lex.specs.TokenKinds.{number};
ghost use Rattle.ir_lex.specs.Tok.{tok};
ghost use Rattle.ir_parse_parts.specs.Readers.{Returns, view_result};
ghost use Rattle.ir_parse_parts.specs.Rules.{is_valued};
ghost use Rattle.ir_parse_parts.specs.Alphabet.{among};
ghost use Rattle.ir_parse_parts.specs.Classes.{tokens, refusal, one_of_at};
ghost use Rattle.ir_parse_parts.specs.Operands.{SCALAR};
ghost use Rattle.ir_parse_operands.specs.declared.extents.Room.{Room};
ghost use Rattle.ir_parse_operands.specs.Extents.{Fits, IsRoom, extent, extent_of, grown, left, members_extent, no_bytes, scalar_extent, whole};
ghost use Rattle.ir_parse_parts.specs.Literals.{IsWidth};
ghost use Rattle.ir_parse_operands.specs.ShapeForms.{angle_refusal, line_of, scalar_align, scalar_typed, leaf_means, counted, count_of, NUMBER};
ghost use Rattle.ir_parse_operands.specs.ShapeFormsAt.{array_head_at, bracketed_at, closed_array_at, closed_structure_at, comma_at, brace_behind_angle_at, count_at, head_at, inner_at, leaf_at, memory_shape_at, packed_head_at, shape_at, structure_end_at};
ghost use Rattle.ir_parse_parts.specs.Shapes.{parts_of};

use crate::extents::{Align, Extent, Room};
use ir_lex::{Token, TokenKind};
use ir_parse_parts::{
    Fault, ReaderError, TokenFault, Tokens, Typed, WrittenShape, decimal, expect, literal,
    memory_refusal, named, refusal, width,
};
use std::alloc::{AllocError, Global};

/// A shape with the line of its first token, and its extent, to which type names add no bytes.
#[derive(Drop)]
pub struct Measured {
    pub typed: Typed,
    pub extent: Extent,
}

/// The scalar that a token writes.
fn scalar_of(t: &Token) -> Measured
    ensures exact { result.typed ≡ scalar_typed (tok t.now) }
    ensures align { result.extent ≡ scalar_extent (scalar_align (tok t.now)) }
    ensures measured { result.extent ≡ extent_of result.typed.shape }
{
    let line = t.line;
    if t.kind.is(TokenKind::Ptr) {
        Measured {
            typed: Typed {
                shape: WrittenShape::ptr(),
                line,
            },
            extent: Extent::scalar(Align::Eight),
        }
    } else {
        let width = width(t);
        Measured {
            typed: Typed {
                shape: WrittenShape::int(width),
                line,
            },
            extent: Extent::scalar(Align::of_width(width)),
        }
    }
}

/// The scalar that a token writes, where there is room for it.
#[tactic(auto, unfolding(crate::specs::ShapeForms::leaf_means, crate::specs::ShapeForms::is_leaf))]
fn scalar_within(room: Room, t: &Token) -> Result<Measured, TokenFault>
    requires room { IsRoom room }
    requires scalar { among tokens SCALAR (tok t.now) ≡ true }
    ensures exact { view_result (λ x. x.typed) result ≡ leaf_means room (tok t.now) }
    ensures measured { IfOk result (λ x. x.extent ≡ extent_of x.typed.shape) }
    ensures fits { IfOk result (λ x. Fits room x.extent) }
{
    let scalar = scalar_of(t);
    if room.room_for(scalar.extent.align) > 1 {
        Ok(scalar)
    } else {
        Err(TokenFault::Limit)
    }
}

/// What a token means where a scalar or a type name may stand.
#[tactic(auto, unfolding(crate::specs::ShapeForms::leaf_means, crate::specs::ShapeForms::is_leaf, ir_parse_parts::specs::Rules::is_valued))]
fn leaf_means(
    alloc: Global,
    room: Room,
    t: &Token,
) -> Result<Result<Measured, TokenFault>, AllocError>
    requires { IsRoom room }
    ensures exact { IfOk result (λ means. view_result (λ x. x.typed) means ≡ leaf_means room (tok t.now)) }
    ensures measured { IfOk result (λ means. IfOk means (λ x. x.extent ≡ extent_of x.typed.shape)) }
    ensures fits { IfOk result (λ means. IfOk means (λ x. Fits room x.extent)) }
{
    if t.kind.is(TokenKind::MemoryInteger) || t.kind.is(TokenKind::Ptr) {
        return Ok(scalar_within(room, t));
    }
    if !t.kind.is(TokenKind::Local) {
        return Ok(Err(memory_refusal(t.kind)));
    }
    let Some(name) = named(alloc, t)? else {
        return Ok(Err(TokenFault::Number));
    };
    Ok(Ok(Measured {
        typed: Typed {
            shape: WrittenShape::named(name),
            line: t.line,
        },
        extent: Extent::no_bytes(),
    }))
}

/// Takes a scalar or a type name.
pub fn leaf_at(alloc: Global, room: Room, tokens: &mut Tokens) -> Result<Measured, ReaderError>
    requires { IsRoom room }
    ensures exact { Returns (λ x. (x.typed, tokens.new)) result (leaf_at room tokens.old) }
    ensures measured { IfOk result (λ x. x.extent ≡ extent_of x.typed.shape) }
    ensures fits { IfOk result (λ x. Fits room x.extent) }
{
    let left = tokens.left();
    match tokens.take() {
        None => Err(ReaderError::Fault(Fault {
            left,
            kind: TokenFault::Syntax,
        })),
        Some(t) => match leaf_means(alloc, room, &t)? {
            Ok(x) => Ok(x),
            Err(kind) => Err(ReaderError::Fault(Fault { left, kind })),
        },
    }
}

/// A literal of so many bits that isn't negative.
#[tactic(auto, unfolding(crate::specs::ShapeForms::counted))]
pub fn counted(width: u8, text: &[u8]) -> Option<u64>
    requires { IsWidth width }
    ensures { result ≡ counted width text.now }
{
    match text {
        [b'-', digits @ ..] => match decimal(digits) {
            Some(0) => Some(0),
            _ => None,
        },
        _ => literal(width, text),
    }
}

#[tactic(auto, unfolding(ir_parse_parts::specs::Rules::is_valued))]
fn count_means(t: &Token) -> Result<u64, TokenFault>
    ensures { result ≡ is_valued tokens refusal NUMBER (count_of 64) (tok t.now) }
{
    if t.kind.is(TokenKind::Number) {
        match counted(64, t.text) {
            None => Err(TokenFault::Number),
            Some(n) => Ok(n),
        }
    } else {
        Err(refusal(t.kind))
    }
}

/// Takes a count, from 0 to `2^64 - 1`.
pub fn count_at(tokens: &mut Tokens) -> Result<u64, ReaderError>
    ensures { Returns (λ x. (x, tokens.new)) result (count_at tokens.old) }
{
    let left = tokens.left();
    match tokens.take() {
        None => Err(ReaderError::Fault(Fault {
            left,
            kind: TokenFault::Syntax,
        })),
        Some(t) => match count_means(&t) {
            Ok(x) => Ok(x),
            Err(kind) => Err(ReaderError::Fault(Fault { left, kind })),
        },
    }
}

/// Takes a token of this kind; the answer is its line.
#[tactic(auto, unfolding(ir_parse_parts::specs::Rules::is_among))]
pub fn line_at(wanted: TokenKind, tokens: &mut Tokens) -> Result<u32, ReaderError>
    ensures { Returns (λ x. (x, tokens.new)) result (one_of_at (number wanted ∷ []) line_of tokens.old) }
{
    let left = tokens.left();
    match tokens.take() {
        None => Err(ReaderError::Fault(Fault {
            left,
            kind: TokenFault::Syntax,
        })),
        Some(t) => {
            if t.kind.is(wanted) {
                Ok(t.line)
            } else {
                Err(ReaderError::Fault(Fault {
                    left,
                    kind: refusal(t.kind),
                }))
            }
        }
    }
}

/// Why a token can't stand behind a `<`: a number would begin a vector, which is left out.
pub fn angle_refusal(head: TokenKind) -> TokenFault
    ensures { result ≡ angle_refusal (number head) }
{
    if head.is(TokenKind::Number) {
        TokenFault::Profile
    } else {
        refusal(head)
    }
}

/// Takes the `{` behind a `<`.
#[tactic(auto, unfolding(ir_parse_parts::specs::Rules::is_class))]
pub fn brace_behind_angle_at(tokens: &mut Tokens) -> Result<(), ReaderError>
    ensures { Returns (λ x. (tt, tokens.new)) result (brace_behind_angle_at tokens.old) }
{
    let left = tokens.left();
    match tokens.take() {
        None => Err(ReaderError::Fault(Fault {
            left,
            kind: TokenFault::Syntax,
        })),
        Some(t) => {
            if t.kind.is(TokenKind::OpenBrace) {
                Ok(())
            } else {
                Err(ReaderError::Fault(Fault {
                    left,
                    kind: angle_refusal(t.kind),
                }))
            }
        }
    }
}

/// What an array or a structure begins with, and the line of its first token.
enum Head {
    Array { line: u32, count: u64 },
    Structure { packed: bool, line: u32 },
}

/// The members of a structure, and their extent without the padding behind them.
#[derive(Drop)]
struct Members {
    shapes: Vec<WrittenShape>,
    extent: Extent,
}

/// Reads `[ N x`: the line of the bracket, and the count.
#[tactic(auto, unfolding(crate::specs::ShapeFormsAt::array_head_at))]
fn array_head_at(tokens: &mut Tokens) -> Result<(u32, u64), ReaderError>
    ensures { Returns (λ x. (x, tokens.new)) result (array_head_at tokens.old) }
{
    let line = line_at(TokenKind::OpenBracket, tokens)?;
    let count = count_at(tokens)?;
    expect(TokenKind::Times, tokens)?;
    Ok((line, count))
}

/// Reads the bracket behind the element of an array.
fn closed_array_at(
    alloc: Global,
    count: u64,
    line: u32,
    element: Measured,
    tokens: &mut Tokens,
) -> Result<Measured, ReaderError>
    requires size { count * element.extent.size ≤ 2147483648 }
    requires measured { element.extent ≡ extent_of element.typed.shape }
    ensures exact { Returns (λ x. (x.typed, tokens.new)) result (closed_array_at count line element.typed.shape tokens.old) }
    ensures measured { IfOk result (λ x. x.extent ≡ extent_of x.typed.shape) }
    ensures fits { (room : Room) → Fits room (extent (count * element.extent.size) element.extent.align) → IfOk result (λ x. Fits room x.extent) }
{
    expect(TokenKind::CloseBracket, tokens)?;
    let extent = element.extent.repeated(count);
    let shape = WrittenShape::array(alloc, count, element.typed.shape)?;
    Ok(Measured {
        typed: Typed { shape, line },
        extent,
    })
}

/// Reads what stands behind the members of a structure.
#[tactic(auto, unfolding(crate::specs::ShapeFormsAt::structure_end_at))]
fn structure_end_at(packed: bool, tokens: &mut Tokens) -> Result<(), ReaderError>
    ensures { Returns (λ x. (tt, tokens.new)) result (structure_end_at packed tokens.old) }
{
    expect(TokenKind::CloseBrace, tokens)?;
    if packed {
        expect(TokenKind::CloseAngle, tokens)
    } else {
        Ok(())
    }
}

/// Reads what stands behind the members of a structure, and makes the structure of them.
fn closed_structure_at(
    packed: bool,
    line: u32,
    members: Members,
    tokens: &mut Tokens,
) -> Result<Measured, ReaderError>
    requires size { members.extent.size ≤ 2147483648 }
    requires measured { members.extent ≡ members_extent packed no_bytes (parts_of members.shapes.items) }
    ensures exact { Returns (λ x. (x.typed, tokens.new)) result (closed_structure_at packed line members.shapes.items tokens.old) }
    ensures measured { IfOk result (λ x. x.extent ≡ extent_of x.typed.shape) }
    ensures fits { (room : Room) → Fits room members.extent → IfOk result (λ x. Fits room x.extent) }
{
    structure_end_at(packed, tokens)?;
    Ok(Measured {
        typed: Typed {
            shape: WrittenShape::structure(packed, members.shapes),
            line,
        },
        extent: members.extent.padded(),
    })
}

/// Reads `< {`: the line of the first.
#[tactic(auto, unfolding(crate::specs::ShapeFormsAt::packed_head_at))]
fn packed_head_at(tokens: &mut Tokens) -> Result<u32, ReaderError>
    ensures { Returns (λ x. (x, tokens.new)) result (packed_head_at tokens.old) }
{
    let line = line_at(TokenKind::OpenAngle, tokens)?;
    brace_behind_angle_at(tokens)?;
    Ok(line)
}

/// Reads what an array or a structure begins with: `[ N x`, `{` or `< {`.
#[tactic(auto, unfolding(crate::specs::ShapeFormsAt::bracketed_at))]
fn bracketed_at(tokens: &mut Tokens) -> Result<Head, ReaderError>
    ensures { Returns (λ x. (x, tokens.new)) result (bracketed_at tokens.old) }
{
    if tokens.comes(TokenKind::OpenBracket) {
        let (line, count) = array_head_at(tokens)?;
        Ok(Head::Array { line, count })
    } else if tokens.comes(TokenKind::OpenBrace) {
        let line = line_at(TokenKind::OpenBrace, tokens)?;
        Ok(Head::Structure {
            packed: false,
            line,
        })
    } else {
        let line = packed_head_at(tokens)?;
        Ok(Head::Structure { packed: true, line })
    }
}

/// Reads what an array or a structure of at most so many levels begins with.
fn head_at(depth: u8, tokens: &mut Tokens) -> Result<Head, ReaderError>
    ensures exact { Returns (λ x. (x, tokens.new)) result (head_at depth tokens.old) }
    ensures levels { IfOk result (λ x. 1 ≤ depth) }
{
    if depth == 0 {
        Err(ReaderError::Fault(Fault {
            left: tokens.left(),
            kind: TokenFault::Limit,
        }))
    } else {
        bracketed_at(tokens)
    }
}

/// Takes a comma, if one comes; the answer is whether it did.
#[tactic(auto, unfolding(ir_parse_parts::specs::Rules::is_class))]
fn comma_at(tokens: &mut Tokens) -> bool
    ensures { comma_at tokens.old ≡ Ok (result, tokens.new) }
{
    let comes = tokens.comes(TokenKind::Comma);
    if comes {
        tokens.take();
    }
    comes
}

/// No members.
fn no_members(alloc: Global) -> Members
    ensures shapes { result.shapes.items ≡ [] }
    ensures extent { result.extent ≡ no_bytes }
{
    Members {
        shapes: Vec::new(alloc),
        extent: Extent::no_bytes(),
    }
}

/// These members, and one more behind them.
fn with_member(packed: bool, members: Members, member: Measured) -> Result<Members, AllocError>
    requires before { members.extent.size ≤ 2147483648 }
    requires more { member.extent.size ≤ 2147483648 }
    requires measured { member.extent ≡ extent_of member.typed.shape }
    ensures shapes { IfOk result (λ x. x.shapes.items ≡ members.shapes.items ++ member.typed.shape ∷ []) }
    ensures extent { IfOk result (λ x. x.extent ≡ grown packed members.extent (extent_of member.typed.shape)) }
{
    let mut shapes = members.shapes;
    shapes.push(member.typed.shape)?;
    Ok(Members {
        shapes,
        extent: members.extent.grown(packed, member.extent),
    })
}

/// Reads the members of a structure, of at most so many levels, up to what stands behind them.
#[cycle(shapes)]
fn inner_at(
    alloc: Global,
    packed: bool,
    depth: u8,
    room: Room,
    tokens: &mut Tokens,
) -> Result<Members, ReaderError>
    requires { IsRoom room }
    ensures exact { Returns (λ x. (x.shapes.items, tokens.new)) result (inner_at packed (λ s. shape_at depth (left packed room s)) tokens.old) }
    ensures measured { IfOk result (λ x. x.extent ≡ members_extent packed no_bytes (parts_of x.shapes.items)) }
    ensures fits { IfOk result (λ x. Fits room x.extent) }
{
    let mut members = no_members(alloc);
    let mut more = !tokens.comes(TokenKind::CloseBrace);
    'each: while more {
        let member = shape_at(alloc, depth, room.left(packed, members.extent), tokens)?;
        members = with_member(packed, members, member)?;
        more = comma_at(tokens);
    }
    Ok(members)
}

/// Reads a shape of at most so many levels.
#[cycle(shapes)]
fn shape_at(
    alloc: Global,
    depth: u8,
    room: Room,
    tokens: &mut Tokens,
) -> Result<Measured, ReaderError>
    requires { IsRoom room }
    ensures exact { Returns (λ x. (x.typed, tokens.new)) result (shape_at depth room tokens.old) }
    ensures measured { IfOk result (λ x. x.extent ≡ extent_of x.typed.shape) }
    ensures fits { IfOk result (λ x. Fits room x.extent) }
{
    if !tokens.comes_bracket() {
        return leaf_at(alloc, room, tokens);
    }
    match head_at(depth, tokens)? {
        Head::Array { line, count } => {
            let element = shape_at(alloc, depth - 1, room.shared(count), tokens)?;
            closed_array_at(alloc, count, line, element, tokens)
        }
        Head::Structure { packed, line } => {
            let members = inner_at(alloc, packed, depth - 1, room, tokens)?;
            closed_structure_at(packed, line, members, tokens)
        }
    }
}

/// Reads a shape of at most 32 levels and `2^31` bytes, where type names count as neither.
#[tactic(auto, unfolding(crate::specs::ShapeFormsAt::memory_shape_at))]
pub fn memory_shape_at(alloc: Global, tokens: &mut Tokens) -> Result<Measured, ReaderError>
    ensures exact { Returns (λ x. (x.typed, tokens.new)) result (memory_shape_at tokens.old) }
    ensures measured { IfOk result (λ x. x.extent ≡ extent_of x.typed.shape) }
    ensures fits { IfOk result (λ x. Fits whole x.extent) }
{
    shape_at(alloc, 32, Room::whole(), tokens)
}
