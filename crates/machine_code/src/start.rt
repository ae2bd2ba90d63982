//! The memory that a run begins with: a block for each variable (LangRef, "Global Variables").
ghost use Rattle.std.specs.Prelude.{length, IfOk, OnOk};
ghost use Rattle.ir_tree.specs.Fits.{Fits};
ghost use Rattle.ir_tree.specs.Layout.{IsLaidOut};
ghost use Rattle.ir_meaning.specs.Programs.{defined};
ghost use Rattle.ir_meaning.specs.Runnable.{AreRunnable};
ghost use Rattle.machine_code.specs.Openings.{IsAdded, IsGlobalSound, IsOpening, IsVariableBlock};
ghost use Rattle.machine_code.specs.Tables.{IsTable};

use crate::bases::Bases;
use crate::image::bytes_of;
use ir_machine::{Block, Memory};
use ir_meaning::defined_init;
use ir_tree::{GlobalValue, Init, Variable};
use std::alloc::{AllocError, Global};

/// The block of a variable that is defined, of this number.
fn block_of(
    alloc: Global,
    bases: &Bases<'_>,
    variable: &Variable,
    init: &Init,
    number: usize,
) -> Result<Block, AllocError>
    requires laid { IsLaidOut variable.now.shape }
    requires fits { Fits variable.now.shape init.now }
    ensures { IfOk result (λ b. IsVariableBlock bases.now number variable.now init.now b) }
{
    let bytes = bytes_of(alloc, bases, &variable.shape, init)?;
    Ok(Block {
        number,
        align: variable.align,
        bytes,
        writable: !variable.constant,
    })
}

/// Adds the block of a global value, if it is a variable that is defined; its number is how many were added before.
fn add(
    alloc: Global,
    bases: &Bases<'_>,
    global: &GlobalValue,
    blocks: &mut Vec<Block>,
) -> Result<(), AllocError>
    requires { IsGlobalSound global.now }
    ensures { OnOk result (IsAdded bases.now blocks.old.items (defined (length blocks.old.items) global.now) blocks.new.items) }
{
    match global {
        GlobalValue::Function(_) => Ok(()),
        GlobalValue::Variable(variable) => match defined_init(variable) {
            Some(init) => {
                let made = block_of(alloc, bases, variable, init, blocks.len())?;
                blocks.push(made)?;
                Ok(())
            }
            None => Ok(()),
        },
    }
}

/// The memory that a run of global values begins with that can be run, where this is their symbol table: the block of each variable that
/// is defined, with the bytes of its initialiser, at the position of its number. What is declared alone has no block.
///
/// Time and memory are linear in the initialisers and the bytes of the variables.
pub fn opening(
    alloc: Global,
    globals: &[GlobalValue],
    bases: &Bases<'_>,
) -> Result<Memory, AllocError>
    requires runnable { AreRunnable globals.now }
    requires table { IsTable globals.now bases.now }
    ensures { IfOk result (λ m. IsOpening globals.now m) }
{
    let mut blocks = Vec::new(alloc);
    for global in globals {
        add(alloc, bases, global, &mut blocks)?;
    }
    let made = blocks.len();
    Ok(Memory { blocks, made })
}
