//! Copies of trees, each equal to what it was made of.
ghost use Rattle.std.specs.Prelude.{◌≡◌, IfOk};
ghost use Rattle.ir_tree.specs.Forms.{forms_of};
ghost use Rattle.ir_tree.specs.declared.instr.Instr.TheVariants.{Select, Address, Call};

use crate::block::{Block, Case, Terminator};
use crate::function::{Function, Param, Variable};
use crate::init_node::{InitHead, InitPart};
use crate::instr::{Incoming, Instr, Line, Phi};
use crate::module::{GlobalValue, Module};
use crate::operand::{Argument, Operand, Reg, Symbol};
use crate::rows::Rows;
use crate::shape::{Shape, ShapeNode};
use crate::text::Text;
use std::alloc::{AllocError, Global};

/// What a copy can be made of.
pub trait Duplicate {
    /// A copy, which is equal to this.
    fn duplicate(&self, alloc: Global) -> Result<Self, AllocError>
        ensures { IfOk result (λ new. new ≡ self.now) };
}

impl Duplicate for Text {
    fn duplicate(&self, alloc: Global) -> Result<Text, AllocError> {
        Text::copied(alloc, self.as_slice())
    }
}

impl<T: Duplicate + Drop> Duplicate for Rows<T> {
    fn duplicate(&self, alloc: Global) -> Result<Rows<T>, AllocError> {
        let mut new = Rows::new(alloc);
        for item in self.as_slice() {
            let item = item.duplicate(alloc)?;
            new.push(item)?;
        }
        Ok(new)
    }
}

impl<T: Duplicate + Drop> Duplicate for Option<T> {
    fn duplicate(&self, alloc: Global) -> Result<Option<T>, AllocError> {
        match self {
            None => Ok(None),
            Some(item) => {
                let item = item.duplicate(alloc)?;
                Ok(Some(item))
            }
        }
    }
}

#[cycle(copies)]
fn copy_shape(alloc: Global, shape: &Shape) -> Result<Shape, AllocError>
    ensures { IfOk result (λ new. new ≡ shape.now) }
{
    match shape.node() {
        ShapeNode::Int(width) => Ok(Shape::int(*width)),
        ShapeNode::Ptr => Ok(Shape::ptr()),
        ShapeNode::Array(count, of) => {
            let of = copy_shape(alloc, of)?;
            Shape::array(alloc, *count, of)
        }
        ShapeNode::Struct(packed, parts) => {
            let parts = copy_shapes(alloc, parts)?;
            Ok(Shape::structure(*packed, parts))
        }
    }
}

#[cycle(copies)]
fn copy_shapes(alloc: Global, parts: &[Shape]) -> Result<Vec<Shape>, AllocError>
    ensures { IfOk result (λ new. new.items ≡ parts.now) }
{
    let mut new = Vec::new(alloc);
    for part in parts {
        let part = copy_shape(alloc, part)?;
        new.push(part)?;
    }
    Ok(new)
}

impl Duplicate for Shape {
    fn duplicate(&self, alloc: Global) -> Result<Shape, AllocError> {
        copy_shape(alloc, self)
    }
}

impl Duplicate for Param {
    fn duplicate(&self, _alloc: Global) -> Result<Param, AllocError> {
        Ok(*self)
    }
}

impl Duplicate for Case {
    fn duplicate(&self, _alloc: Global) -> Result<Case, AllocError> {
        Ok(*self)
    }
}

impl Duplicate for Symbol {
    fn duplicate(&self, alloc: Global) -> Result<Symbol, AllocError> {
        let name = self.name.duplicate(alloc)?;
        Ok(Symbol {
            home: self.home,
            name,
        })
    }
}

impl Duplicate for Operand {
    fn duplicate(&self, alloc: Global) -> Result<Operand, AllocError> {
        match self {
            Operand::Local(local) => Ok(Operand::Local(*local)),
            Operand::Number { width, bits } => {
                Ok(Operand::Number {
                    width: *width,
                    bits: *bits,
                })
            }
            Operand::Null => Ok(Operand::Null),
            Operand::Poison(reg) => Ok(Operand::Poison(*reg)),
            Operand::Symbol { symbol, offset } => {
                let symbol = symbol.duplicate(alloc)?;
                Ok(Operand::Symbol {
                    symbol,
                    offset: *offset,
                })
            }
        }
    }
}

impl Duplicate for Argument {
    fn duplicate(&self, alloc: Global) -> Result<Argument, AllocError> {
        let operand = self.operand.duplicate(alloc)?;
        Ok(Argument {
            reg: self.reg,
            operand,
        })
    }
}

impl Duplicate for Incoming {
    fn duplicate(&self, alloc: Global) -> Result<Incoming, AllocError> {
        let value = self.value.duplicate(alloc)?;
        Ok(Incoming {
            from: self.from,
            value,
        })
    }
}

fn copy_both(
    alloc: Global,
    left: &Operand,
    right: &Operand,
) -> Result<(Operand, Operand), AllocError>
    ensures left { IfOk result (λ both. both.0 ≡ left.now) }
    ensures right { IfOk result (λ both. both.1 ≡ right.now) }
{
    let first = left.duplicate(alloc)?;
    let second = right.duplicate(alloc)?;
    Ok((first, second))
}

fn copy_select(
    alloc: Global,
    condition: &Operand,
    if_true: &Argument,
    if_false: &Argument,
) -> Result<Instr, AllocError>
    ensures { IfOk result (λ new. new ≡ Select condition.now if_true.now if_false.now) }
{
    let condition = condition.duplicate(alloc)?;
    let if_true = if_true.duplicate(alloc)?;
    let if_false = if_false.duplicate(alloc)?;
    Ok(Instr::Select {
        condition,
        if_true,
        if_false,
    })
}

fn copy_address(
    alloc: Global,
    inbounds: bool,
    shape: &Shape,
    base: &Operand,
    indices: &Rows<Argument>,
) -> Result<Instr, AllocError>
    ensures { IfOk result (λ new. new ≡ Address inbounds shape.now base.now indices.now) }
{
    let shape = shape.duplicate(alloc)?;
    let base = base.duplicate(alloc)?;
    let indices = indices.duplicate(alloc)?;
    Ok(Instr::Address {
        inbounds,
        shape,
        base,
        indices,
    })
}

fn copy_call(
    alloc: Global,
    given: Option<Reg>,
    callee: &Operand,
    arguments: &Rows<Argument>,
) -> Result<Instr, AllocError>
    ensures { IfOk result (λ new. new ≡ Call given callee.now arguments.now) }
{
    let callee = callee.duplicate(alloc)?;
    let arguments = arguments.duplicate(alloc)?;
    Ok(Instr::Call {
        result: given,
        callee,
        arguments,
    })
}

impl Duplicate for Instr {
    fn duplicate(&self, alloc: Global) -> Result<Instr, AllocError> {
        match self {
            Instr::Binary {
                op,
                flags,
                width,
                left,
                right,
            } => {
                let (left, right) = copy_both(alloc, left, right)?;
                Ok(Instr::Binary {
                    op: *op,
                    flags: *flags,
                    width: *width,
                    left,
                    right,
                })
            }
            Instr::Icmp {
                predicate,
                reg,
                left,
                right,
            } => {
                let (left, right) = copy_both(alloc, left, right)?;
                Ok(Instr::Icmp {
                    predicate: *predicate,
                    reg: *reg,
                    left,
                    right,
                })
            }
            Instr::Cast {
                op,
                from,
                value,
                to,
            } => {
                let value = value.duplicate(alloc)?;
                Ok(Instr::Cast {
                    op: *op,
                    from: *from,
                    value,
                    to: *to,
                })
            }
            Instr::Select {
                condition,
                if_true,
                if_false,
            } => copy_select(alloc, condition, if_true, if_false),
            Instr::Freeze { reg, value } => {
                let value = value.duplicate(alloc)?;
                Ok(Instr::Freeze { reg: *reg, value })
            }
            Instr::Alloca { shape, align } => {
                let shape = shape.duplicate(alloc)?;
                Ok(Instr::Alloca {
                    shape,
                    align: *align,
                })
            }
            Instr::Load {
                reg,
                address,
                align,
            } => {
                let address = address.duplicate(alloc)?;
                Ok(Instr::Load {
                    reg: *reg,
                    address,
                    align: *align,
                })
            }
            Instr::Store {
                reg,
                value,
                address,
                align,
            } => {
                let (value, address) = copy_both(alloc, value, address)?;
                Ok(Instr::Store {
                    reg: *reg,
                    value,
                    address,
                    align: *align,
                })
            }
            Instr::Address {
                inbounds,
                shape,
                base,
                indices,
            } => copy_address(alloc, *inbounds, shape, base, indices),
            Instr::Call {
                result,
                callee,
                arguments,
            } => copy_call(alloc, *result, callee, arguments),
            Instr::Phi { reg, incoming } => {
                let incoming = incoming.duplicate(alloc)?;
                Ok(Instr::Phi {
                    reg: *reg,
                    incoming,
                })
            }
        }
    }
}

impl Duplicate for Line {
    fn duplicate(&self, alloc: Global) -> Result<Line, AllocError> {
        let instr = self.instr.duplicate(alloc)?;
        Ok(Line {
            local: self.local,
            instr,
        })
    }
}

impl Duplicate for Phi {
    fn duplicate(&self, alloc: Global) -> Result<Phi, AllocError> {
        let incoming = self.incoming.duplicate(alloc)?;
        Ok(Phi {
            local: self.local,
            reg: self.reg,
            incoming,
        })
    }
}

impl Duplicate for Terminator {
    fn duplicate(&self, alloc: Global) -> Result<Terminator, AllocError> {
        match self {
            Terminator::Return(argument) => {
                let argument = argument.duplicate(alloc)?;
                Ok(Terminator::Return(argument))
            }
            Terminator::Jump(target) => Ok(Terminator::Jump(*target)),
            Terminator::Branch {
                condition,
                if_true,
                if_false,
            } => {
                let condition = condition.duplicate(alloc)?;
                Ok(Terminator::Branch {
                    condition,
                    if_true: *if_true,
                    if_false: *if_false,
                })
            }
            Terminator::Switch {
                width,
                value,
                default,
                cases,
            } => {
                let value = value.duplicate(alloc)?;
                let cases = cases.duplicate(alloc)?;
                Ok(Terminator::Switch {
                    width: *width,
                    value,
                    default: *default,
                    cases,
                })
            }
            Terminator::Unreachable => Ok(Terminator::Unreachable),
        }
    }
}

impl Duplicate for Block {
    fn duplicate(&self, alloc: Global) -> Result<Block, AllocError> {
        let phis = self.phis.duplicate(alloc)?;
        let lines = self.lines.duplicate(alloc)?;
        let end = self.end.duplicate(alloc)?;
        Ok(Block {
            number: self.number,
            phis,
            lines,
            end,
        })
    }
}

impl Duplicate for Function {
    fn duplicate(&self, alloc: Global) -> Result<Function, AllocError> {
        let symbol = self.symbol.duplicate(alloc)?;
        let params = self.params.duplicate(alloc)?;
        let blocks = self.blocks.duplicate(alloc)?;
        Ok(Function {
            symbol,
            linkage: self.linkage,
            result: self.result,
            params,
            noinline: self.noinline,
            optnone: self.optnone,
            blocks,
        })
    }
}

impl Duplicate for InitHead {
    fn duplicate(&self, alloc: Global) -> Result<InitHead, AllocError> {
        match self {
            InitHead::Plain(operand) => {
                let operand = operand.duplicate(alloc)?;
                Ok(InitHead::Plain(operand))
            }
            InitHead::Zeros => Ok(InitHead::Zeros),
            InitHead::Bytes(text) => {
                let text = text.duplicate(alloc)?;
                Ok(InitHead::Bytes(text))
            }
            InitHead::Array => Ok(InitHead::Array),
            InitHead::Struct { packed } => { Ok(InitHead::Struct { packed: *packed }) }
        }
    }
}

impl Duplicate for InitPart {
    fn duplicate(&self, alloc: Global) -> Result<InitPart, AllocError> {
        match self {
            InitPart::Typed { shape, head } => {
                let shape = shape.duplicate(alloc)?;
                let head = head.duplicate(alloc)?;
                Ok(InitPart::Typed { shape, head })
            }
            InitPart::End => Ok(InitPart::End),
        }
    }
}

impl Duplicate for Variable {
    fn duplicate(&self, alloc: Global) -> Result<Variable, AllocError> {
        let symbol = self.symbol.duplicate(alloc)?;
        let shape = self.shape.duplicate(alloc)?;
        let init = self.init.duplicate(alloc)?;
        Ok(Variable {
            symbol,
            linkage: self.linkage,
            constant: self.constant,
            shape,
            init,
            align: self.align,
        })
    }
}

impl Duplicate for GlobalValue {
    fn duplicate(&self, alloc: Global) -> Result<GlobalValue, AllocError> {
        match self {
            GlobalValue::Variable(variable) => {
                let variable = variable.duplicate(alloc)?;
                Ok(GlobalValue::Variable(variable))
            }
            GlobalValue::Function(function) => {
                let function = function.duplicate(alloc)?;
                Ok(GlobalValue::Function(function))
            }
        }
    }
}

impl Duplicate for Module {
    fn duplicate(&self, alloc: Global) -> Result<Module, AllocError> {
        let datalayout = self.datalayout.duplicate(alloc)?;
        let triple = self.triple.duplicate(alloc)?;
        let globals = self.globals.duplicate(alloc)?;
        Ok(Module {
            datalayout,
            triple,
            globals,
        })
    }
}
