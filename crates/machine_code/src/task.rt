//! Instructions over sources (LangRef, "Instruction Reference").
ghost use Rattle.std.specs.Prelude.{◌≡◌, All, IfOk};
ghost use Rattle.ir_tree.specs.Layout.{IsLaidOut};
ghost use Rattle.ir_machine.specs.Marks.{HasWidth};
ghost use Rattle.machine_code.specs.Tasks.{IsSoundInstr, IsTask};

use crate::addresses::Addresses;
use ir_interp::{Compute, Task};
use ir_tree::{Argument, Instr, Operand, Reg, Shape, size_of};
use std::alloc::{AllocError, Global};

impl<'a> Addresses<'a> {
    /// An address computation over sources.
    fn address<'i>(
        &self,
        alloc: Global,
        inbounds: bool,
        shape: &'i Shape,
        base: &Operand,
        indices: &[Argument],
    ) -> Result<Task<'i>, AllocError>
        requires laid { IsLaidOut shape.now }
        requires widths { All (λ i. HasWidth i.reg) indices.now }
        ensures { IfOk result (λ task. IsTask self.now (Instr.Address inbounds shape.entry.now base.now indices.now) task) }
    {
        let base = self.source(base);
        let indices = self.all_typed(alloc, indices)?;
        Ok(Task::Compute(Compute::Address {
            inbounds,
            shape,
            base,
            indices,
        }))
    }

    /// A call over sources.
    fn call<'i>(
        &self,
        alloc: Global,
        returned: Option<Reg>,
        callee: &Operand,
        arguments: &[Argument],
    ) -> Result<Task<'i>, AllocError>
        ensures { IfOk result (λ task. IsTask self.now (Instr.Call returned callee.now arguments.now) task) }
    {
        let callee = self.source(callee);
        let arguments = self.all_typed(alloc, arguments)?;
        Ok(Task::Call {
            result: returned,
            callee,
            arguments,
        })
    }

    /// An instruction over sources. Time and memory are in proportion to its operands; an `alloca` asks besides for the size
    /// of its shape.
    pub(crate) fn task<'i>(&self, alloc: Global, instr: &'i Instr) -> Result<Task<'i>, AllocError>
        requires { IsSoundInstr instr.now }
        ensures { IfOk result (λ task. IsTask self.now instr.entry.now task) }
    {
        match instr {
            Instr::Binary {
                op,
                flags,
                width,
                left,
                right,
            } => {
                let left = self.source(left);
                let right = self.source(right);
                Ok(Task::Compute(Compute::Binary {
                    op: *op,
                    flags: *flags,
                    width: *width,
                    left,
                    right,
                }))
            }
            Instr::Icmp {
                predicate,
                reg,
                left,
                right,
            } => {
                let left = self.source(left);
                let right = self.source(right);
                Ok(Task::Compute(Compute::Compare {
                    predicate: *predicate,
                    reg: *reg,
                    left,
                    right,
                }))
            }
            Instr::Cast {
                op,
                from,
                value,
                to,
            } => {
                let value = self.source(value);
                Ok(Task::Compute(Compute::Cast {
                    op: *op,
                    from: *from,
                    to: *to,
                    value,
                }))
            }
            Instr::Select {
                condition,
                if_true,
                if_false,
            } => {
                let condition = self.source(condition);
                let first = self.source(&if_true.operand);
                let second = self.source(&if_false.operand);
                Ok(Task::Compute(Compute::Select {
                    condition,
                    if_true: first,
                    if_false: second,
                }))
            }
            Instr::Freeze { reg, value } => {
                let value = self.source(value);
                Ok(Task::Compute(Compute::Freeze { reg: *reg, value }))
            }
            Instr::Load {
                reg,
                address,
                align,
            } => {
                let address = self.source(address);
                Ok(Task::Compute(Compute::Load {
                    reg: *reg,
                    address,
                    align: *align,
                }))
            }
            Instr::Address {
                inbounds,
                shape,
                base,
                indices,
            } => self.address(alloc, *inbounds, shape, base, indices.as_slice()),
            Instr::Phi { .. } => Ok(Task::Compute(Compute::Poison)),
            Instr::Alloca { shape, align } => {
                let size = size_of(shape);
                Ok(Task::Reserve {
                    size: size as usize,
                    align: *align,
                })
            }
            Instr::Store {
                reg,
                value,
                address,
                align,
            } => {
                let value = self.source(value);
                let address = self.source(address);
                Ok(Task::Store {
                    reg: *reg,
                    value,
                    address,
                    align: *align,
                })
            }
            Instr::Call {
                result,
                callee,
                arguments,
            } => self.call(alloc, *result, callee, arguments.as_slice()),
        }
    }
}
