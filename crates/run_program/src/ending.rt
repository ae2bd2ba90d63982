//! How the ending of a run is told.
ghost use Rattle.std.specs.Prelude.{◌≡◌, IfErr, IfOk, Some};
ghost use Rattle.ir_tree.specs.Wholes.{symbols};
ghost use Rattle.ir_interp.specs.Runs.{ending_meant};
ghost use Rattle.run_program.specs.Arguments.{IsGiven};
ghost use Rattle.run_program.specs.Files.{file_in};
ghost use Rattle.run_program.specs.Said.{ending_refusal};
ghost use Rattle.run_program.specs.Causes.{Because, never};
ghost use Rattle.run_program.specs.Endings.{IsSaid};

use crate::telling::{returned, undefined, uninit};
use ir_interp::RunEnd;
use ir_tree::{GlobalValue, Reg};
use lto_fault::{Refusal, Returned};
use lto_words::FileName;
use std::alloc::Global;
use symbol_resolve::Resolution;

/// What a run that ended so returned, or how its ending is told.
pub(crate) fn ended(
    alloc: Global,
    globals: &[GlobalValue],
    names: &[FileName],
    resolution: &Resolution<'_>,
    gives: Option<Reg>,
    steps: u32,
    end: RunEnd,
) -> Result<Returned, Refusal>
    requires { IsGiven gives }
    ensures returned { IfOk result (IsSaid gives (ending_meant (symbols globals.now) end)) }
    ensures because { IfErr result (Because (record never { unreturned = λ why. ending_refusal (file_in names.now resolution.now) steps (ending_meant (symbols globals.now) end) ≡ Some why; memory = Unit {0} })) }
{
    match end {
        RunEnd::Returned(answer) => Ok(returned(gives, answer)),
        RunEnd::Undefined(cause, place) => {
            Err(undefined(alloc, globals, names, resolution, cause, place))
        },
        RunEnd::Uninit(place) => Err(uninit(alloc, globals, names, resolution, place)),
        RunEnd::OutOfSteps => Err(Refusal::OutOfSteps {
            steps: u64::from(steps),
        }),
    }
}
