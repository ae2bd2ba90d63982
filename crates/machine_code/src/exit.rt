//! Terminators over sources and positions (LangRef, "Terminator Instructions").
ghost use Rattle.std.specs.Prelude.{◌≡◌, IfOk, List};
ghost use Rattle.std.specs.List.{AllZip};
ghost use Rattle.ir_tree.specs.declared.block.Block.{Block};
ghost use Rattle.machine_code.specs.Blocks.{ArePositions, IsCase, IsExit};

use crate::addresses::Addresses;
use crate::positions::Positions;
use ir_interp::{Case, Exit, Source};
use ir_tree::{Argument, Terminator};
use std::alloc::{AllocError, Global};

/// The cases of a `switch`.
fn cases_at(
    alloc: Global,
    positions: &Positions,
    cases: &[ir_tree::Case],
) -> Result<Vec<Case>, AllocError>
    ensures { IfOk result (λ all. (blocks : List Block) → ArePositions blocks positions.now → AllZip (IsCase blocks) cases.now all.items) }
{
    let mut all = Vec::with_capacity(alloc, cases.len())?;
    for case in cases {
        all.push(Case {
            bits: case.bits,
            target: positions.at(case.target),
        })?;
    }
    Ok(all)
}

impl<'a> Addresses<'a> {
    /// What a `ret` returns.
    fn answer(&self, answer: &Option<Argument>) -> Option<Source>
        ensures { (blocks : List Block) → IsExit self.now blocks (Terminator.Return answer.now) (Exit.Return result) }
    {
        match answer {
            Some(argument) => Some(self.source(&argument.operand)),
            None => None,
        }
    }

    /// A terminator over sources.
    pub(crate) fn exit(
        &self,
        alloc: Global,
        positions: &Positions,
        end: &Terminator,
    ) -> Result<Exit, AllocError>
        ensures { IfOk result (λ exit. (blocks : List Block) → ArePositions blocks positions.now → IsExit self.now blocks end.now exit) }
    {
        match end {
            Terminator::Return(answer) => Ok(Exit::Return(self.answer(answer))),
            Terminator::Jump(target) => Ok(Exit::Jump(positions.at(*target))),
            Terminator::Branch {
                condition,
                if_true,
                if_false,
            } => {
                let condition = self.source(condition);
                let first = positions.at(*if_true);
                let second = positions.at(*if_false);
                Ok(Exit::Branch {
                    condition,
                    if_true: first,
                    if_false: second,
                })
            }
            Terminator::Switch {
                width,
                value,
                default,
                cases,
            } => {
                let value = self.source(value);
                let default = positions.at(*default);
                let cases = cases_at(alloc, positions, cases.as_slice())?;
                Ok(Exit::Switch {
                    width: *width,
                    value,
                    default,
                    cases,
                })
            }
            Terminator::Unreachable => Ok(Exit::Unreachable),
        }
    }
}
