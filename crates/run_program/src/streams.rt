//! The streams of a run, as refusals name them.
ghost use Rattle.std.specs.Prelude.{◌≡◌, IfOk};
ghost use Rattle.run_program.specs.Endings.{given_up};
ghost use Rattle.run_program.specs.Streams.{INPUT, OUTPUT};

use ir_interp::RunFault;
use ir_tree::Text;
use lto_fault::Refusal;
use std::alloc::{AllocError, Global};

/// The output as it is named in a refusal.
pub fn output(alloc: Global) -> Result<Text, AllocError>
    ensures { IfOk result (λ name. name ≡ OUTPUT) }
{
    Text::copied(alloc, b"output")
}

/// The names of the input and the output. They are made before the run, so that a fault is told without memory.
#[derive(Drop)]
pub(crate) struct StreamNames {
    input: Text,
    output: Text,
}

pub(crate) fn stream_names(alloc: Global) -> Result<StreamNames, AllocError>
    ensures input { IfOk result (λ s. s.input ≡ INPUT) }
    ensures output { IfOk result (λ s. s.output ≡ OUTPUT) }
{
    let input = Text::copied(alloc, b"input")?;
    let output = output(alloc)?;
    Ok(StreamNames { input, output })
}

/// That the run was given up.
pub(crate) fn given_up(fault: RunFault, streams: StreamNames) -> Refusal
    ensures { result ≡ given_up streams fault }
{
    let StreamNames { input, output } = streams;
    match fault {
        RunFault::In => Refusal::ReadFault { name: input },
        RunFault::Out => Refusal::WriteFault { name: output },
        RunFault::NoMemory => Refusal::NoMemory,
    }
}
