//! The code of global values.
ghost use Rattle.std.specs.Prelude.{All, IfOk};
ghost use Rattle.std.specs.List.{AllZip};
ghost use Rattle.ir_meaning.specs.Runnable.{AreRunnable};
ghost use Rattle.machine_code.specs.Lowered.{IsLowered, IsMadeOf};
ghost use Rattle.machine_code.specs.Programs.{IsBodyFor, IsSoundGlobal};

use crate::addresses::Addresses;
use crate::bases::Bases;
use crate::symbol::entities;
use ir_interp::{Code, Function};
use ir_meaning::defined_blocks;
use ir_tree::GlobalValue;
use std::alloc::{AllocError, Global};

impl<'a> Addresses<'a> {
    /// The code of a function that is defined.
    fn body<'t>(
        &self,
        alloc: Global,
        global: &'t GlobalValue,
    ) -> Result<Option<Function<'t>>, AllocError>
        requires { IsSoundGlobal global.now }
        ensures { IfOk result (λ o. IsBodyFor self.now global.entry.now o) }
    {
        match global {
            GlobalValue::Variable(_) => Ok(None),
            GlobalValue::Function(function) => {
                let count = defined_blocks(function).len();
                if count == 0 {
                    Ok(None)
                } else {
                    let made = self.function(alloc, function)?;
                    Ok(Some(made))
                }
            }
        }
    }

    /// The code of the functions that are defined, in the order of the global values.
    fn bodies<'t>(
        &self,
        alloc: Global,
        globals: &'t [GlobalValue],
    ) -> Result<Vec<Option<Function<'t>>>, AllocError>
        requires { All IsSoundGlobal globals.now }
        ensures { IfOk result (λ all. AllZip (IsBodyFor self.now) globals.entry.now all.items) }
    {
        let mut all = Vec::with_capacity(alloc, globals.len())?;
        for global in globals {
            let made = self.body(alloc, global)?;
            all.push(made)?;
        }
        Ok(all)
    }
}

/// Global values as the machine runs them: their code, and what the addresses of their symbols are based on.
#[derive(Drop)]
pub struct Lowered<'a> {
    pub code: Code<'a>,
    pub addresses: Addresses<'a>,
}

/// The code of global values that can be run. A symbol is known by the index of its global value, a register is the local of its number.
///
/// One pass over the global values: time and memory are linear in them. Beside want of memory, `2^32` global values, or blocks in
/// one function, and functions of `2^64` instructions are refused as too many for it.
pub fn lower<'a>(alloc: Global, globals: &'a [GlobalValue]) -> Result<Lowered<'a>, AllocError>
    requires { AreRunnable globals.now }
    ensures code { IfOk result (λ l. IsLowered globals.entry.now l.code) }
    ensures made { IfOk result (λ l. IsMadeOf globals.entry.now l) }
{
    let bases = Bases::of(alloc, globals)?;
    let addresses = Addresses { bases };
    let entities = entities(alloc, globals)?;
    let functions = addresses.bodies(alloc, globals)?;
    Ok(Lowered {
        code: Code {
            entities,
            functions,
        },
        addresses,
    })
}
