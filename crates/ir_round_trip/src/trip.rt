//! Bytes read, printed and read again.

ghost use Rattle.std.specs.Prelude.{◌≡◌, ℕ, List, IfOk, IsErrOf};
ghost use Rattle.ir_parse.specs.FirstFault.{FirstFault};
ghost use Rattle.ir_parse.specs.Reading.{Reads};
ghost use Rattle.ir_parse.specs.declared.fault.ReadFault.{ReadFault};
ghost use Rattle.ir_tree.specs.declared.module.Module.{Module};
ghost use Rattle.ir_round_trip.specs.Trips.{IsTripOf};
ghost use Rattle.ir_tree.specs.declared.failure.Failure.TheVariants.{Fault};

use crate::laws::read_modules_are_read;
use ir_parse::{ReadError, parse};
use ir_print::print;
use ir_tree::{Parsed, Text};
use std::alloc::{AllocError, Global};

/// A module that was read, its printed text, and what that text is read as.
#[derive(Drop)]
pub struct Trip {
    pub module: Parsed,
    pub text: Text,
    pub again: Parsed,
}

/// What bytes are read as that are read as a module: want of memory is the one refusal.
fn parsed_again(alloc: Global, bytes: &[u8]) -> Result<Parsed, AllocError>
    requires { (m : Module) × (lines : List (List ℕ)) × Reads bytes.now m lines }
    ensures { (m : Module) (lines : List (List ℕ)) → Reads bytes.now m lines → IfOk result (λ p. (p.0 ≡ m) × (p.1 ≡ lines)) }
{
    match parse(alloc, bytes) {
        Ok(parsed) => Ok(parsed),
        Err(ReadError::NoMemory) => Err(AllocError),
        Err(ReadError::Fault(_)) => unreachable!(),
    }
}

/// Reads the bytes as a module, prints it, and reads what was printed: that is the same module again,
/// sound or not (LangRef, "Module Structure").
///
/// Bytes that are read as no module are refused for that; the printed text is never refused. Takes
/// the time of its three parts.
pub fn read_twice(alloc: Global, bytes: &[u8]) -> Result<Trip, ReadError>
    ensures made { IfOk result (λ t. IsTripOf bytes.now t) }
    ensures unread { (fault : ReadFault) → IsErrOf result (Fault fault) → FirstFault bytes.now fault.line fault.kind }
{
    read_modules_are_read();
    let module = parse(alloc, bytes)?;
    let text = print(alloc, module.module())?;
    let again = parsed_again(alloc, text.as_slice())?;
    Ok(Trip {
        module,
        text,
        again,
    })
}
