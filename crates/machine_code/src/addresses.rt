//! The addresses of a program's symbols, and what operands are read from.
ghost use Rattle.std.specs.Prelude.{IfOk};
ghost use Rattle.std.specs.List.{AllZip};
ghost use Rattle.machine_code.specs.Sources.{IsTyped, StandsFor};

use crate::bases::Bases;
use ir_interp::{Source, Typed};
use ir_machine::{Base, Pointer, Scalar};
use ir_tree::{Argument, Operand};
use std::alloc::{AllocError, Global};

/// The addresses of symbols, by what each is based on.
#[derive(Drop)]
pub struct Addresses<'a> {
    pub bases: Bases<'a>,
}

impl<'a> Addresses<'a> {
    /// What an operand is read from.
    pub(crate) fn source(&self, operand: &Operand) -> Source
        ensures { StandsFor self.now operand.now result }
    {
        match operand {
            Operand::Local(local) => Source::Register(*local),
            Operand::Number { bits, .. } => Source::Known(Scalar::Number(*bits)),
            Operand::Null => Source::Known(Scalar::Pointer(Pointer {
                base: Base::Null,
                offset: 0,
            })),
            Operand::Poison(_) => Source::Known(Scalar::Poison),
            Operand::Symbol { symbol, offset } => Source::Known(
                self.bases.address(symbol, *offset),
            ),
        }
    }

    /// What an argument is read from.
    fn typed(&self, argument: &Argument) -> Typed
        ensures { IsTyped self.now argument.now result }
    {
        Typed {
            reg: argument.reg,
            source: self.source(&argument.operand),
        }
    }

    /// What arguments are read from.
    pub(crate) fn all_typed(
        &self,
        alloc: Global,
        arguments: &[Argument],
    ) -> Result<Vec<Typed>, AllocError>
        ensures { IfOk result (λ all. AllZip (IsTyped self.now) arguments.now all.items) }
    {
        let mut all = Vec::with_capacity(alloc, arguments.len())?;
        for argument in arguments {
            all.push(self.typed(argument))?;
        }
        Ok(all)
    }
}
