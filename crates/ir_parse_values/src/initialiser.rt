//! Initialisers with their names resolved (LangRef, "Constants").
ghost use Rattle.std.specs.Prelude.{◌≡◌, None, if◌then◌else◌, IfOk};
ghost use Rattle.ir_lex.specs.Quotes.{content};
ghost use Rattle.ir_parse_names.specs.Resolving.{ResolvesTo, each};
ghost use Rattle.ir_parse_names.specs.Variables.{constant_type, constant_for, number_for, head_in, part_in};
ghost use Rattle.ir_parse_names.specs.Types.{is_width};
ghost use Rattle.ir_parse_parts.specs.Literals.{literal};
ghost use Rattle.ir_parse_names.specs.Variables as definitions;
ghost use Rattle.ir_parse_values.specs.Closing.{tree_in, initial_in};
ghost use Rattle.ir_tree.specs.Initials.{tree_of, IsFlat};

use crate::collected::{behind, finish, push};
use crate::operand::operand_in;
use ir_parse_names::{Locals, ResolveError, Types, expanded};
use ir_parse_parts::{
    Init as Written, InitHead as WrittenHead, InitPart as WrittenPart, Name, literal,
};
use ir_tree::{Init, InitHead, InitPart, Operand, Reg, Rows, Shape, ShapeNode, Text};
use std::alloc::{AllocError, Global};

/// The bytes that a string writes.
fn bytes_of(alloc: Global, string: &Name) -> Result<Text, AllocError>
    ensures { IfOk result (λ text. text ≡ content string.now.form string.now.text) }
{
    let content = string.token().content(alloc)?;
    Text::copied(alloc, content.as_slice())
}

/// The type of a constant for a shape: `i1`, which no shape in memory has, where that is no scalar.
fn constant_type(shape: &Shape) -> Reg
    ensures { result ≡ constant_type shape.now }
{
    match shape.node() {
        ShapeNode::Int(width) => Reg::Int(*width),
        ShapeNode::Ptr => Reg::Ptr,
        ShapeNode::Array(..) | ShapeNode::Struct(..) => Reg::Int(1),
    }
}

/// A constant for a shape, which may be written as a type name: `poison` is of its type.
fn constant_for(shape: &Shape, constant: Operand) -> Operand
    ensures { result ≡ constant_for shape.now constant }
{
    match constant {
        Operand::Poison(_) => Operand::Poison(constant_type(shape)),
        other => other,
    }
}

/// The bits of a literal of a width that memory holds, where it is in range.
fn bits_of(width: u8, number: &Name) -> Option<u64>
    ensures { result ≡ (if is_width width then literal width number.now.text else None) }
{
    if 8 <= width && width <= 64 {
        literal(width, number.token().text)
    } else {
        None
    }
}

/// A number for a shape, which may be written as a type name: a literal of an integer, and `false`,
/// which fits nothing in memory, where it is out of range or for no integer.
fn number_for(shape: &Shape, number: &Name) -> Operand
    ensures { result ≡ number_for shape.now number.now }
{
    match shape.node() {
        ShapeNode::Int(width) => match bits_of(*width, number) {
            Some(bits) => Operand::Number {
                width: *width,
                bits,
            },
            None => Operand::Number { width: 1, bits: 0 },
        },
        ShapeNode::Ptr | ShapeNode::Array(..) | ShapeNode::Struct(..) => {
            Operand::Number { width: 1, bits: 0 }
        }
    }
}

/// What an initialiser for a shape stands for where it has no parts, or the beginning of one with
/// parts.
fn head_in<'t>(
    alloc: Global,
    types: &Types<'t>,
    locals: &Locals<'t>,
    shape: &Shape,
    head: &'t WrittenHead,
) -> Result<InitHead, ResolveError>
    ensures { ResolvesTo (λ h. h) result (head_in types.now locals.now shape.now head.now) }
{
    match head {
        WrittenHead::Plain(operand) => {
            let operand = operand_in(alloc, types, locals, operand)?;
            Ok(InitHead::Plain(constant_for(shape, operand)))
        }
        WrittenHead::Zeros => Ok(InitHead::Zeros),
        WrittenHead::Bytes(string) => {
            let text = bytes_of(alloc, string)?;
            Ok(InitHead::Bytes(text))
        }
        WrittenHead::Number(number) => Ok(InitHead::Plain(number_for(shape, number))),
        WrittenHead::Array => Ok(InitHead::Array),
        WrittenHead::Struct { packed } => Ok(InitHead::Struct { packed: *packed }),
    }
}

/// What a part stands for.
fn part_in<'t>(
    alloc: Global,
    types: &Types<'t>,
    locals: &Locals<'t>,
    part: &'t WrittenPart,
) -> Result<InitPart, ResolveError>
    ensures { ResolvesTo (λ p. p) result (part_in types.now locals.now part.now) }
{
    match part {
        WrittenPart::Typed { typed, head } => {
            let shape = expanded(alloc, types, typed)?;
            let head = head_in(alloc, types, locals, &shape, head)?;
            Ok(InitPart::Typed { shape, head })
        }
        WrittenPart::End => Ok(InitPart::End),
    }
}

/// The parts behind the beginning of an initialiser, each of whose aggregates is closed.
#[tactic(auto, using(crate::proofs::Closings::pushed_more))]
fn parts_in<'t>(
    alloc: Global,
    types: &Types<'t>,
    locals: &Locals<'t>,
    root: &InitHead,
    parts: &'t [WrittenPart],
) -> Result<Rows<InitPart>, ResolveError>
    ensures tree { ResolvesTo (λ ps. tree_of (root.now, ps)) result (tree_in root.now (each (part_in types.now locals.now) parts.now)) }
    ensures flat { IfOk result (λ ps. IsFlat root.now ps) }
{
    let mut collected = behind(alloc, root)?;
    'each: for part in parts {
        let made = part_in(alloc, types, locals, part)?;
        push(&mut collected, made)?;
    }
    let out = finish(collected)?;
    Ok(out)
}

/// What an initialiser for a shape stands for, with these locals known.
#[tactic(auto, using(crate::proofs::Closings::same_tree))]
fn initial_in<'t>(
    alloc: Global,
    types: &Types<'t>,
    locals: &Locals<'t>,
    shape: &Shape,
    init: &'t Written,
) -> Result<Init, ResolveError>
    ensures { ResolvesTo (λ v. v) result (initial_in types.now locals.now shape.now init.now) }
{
    let root = head_in(alloc, types, locals, shape, &init.root)?;
    let parts = parts_in(alloc, types, locals, &root, init.parts.as_slice())?;
    Ok(Init::of(root, parts))
}

/// What an initialiser for a shape stands for. No local is known in it.
pub fn init_in<'t>(
    alloc: Global,
    types: &Types<'t>,
    shape: &Shape,
    init: &'t Written,
) -> Result<Init, ResolveError>
    ensures { ResolvesTo (λ v. v) result (definitions.init_in types.now shape.now init.now) }
{
    let locals = Locals::new(alloc);
    initial_in(alloc, types, &locals, shape, init)
}
