//! Writes modules, functions and variables whole.
ghost use Rattle.std.specs.Prelude.{◌≡◌, ◌++◌, ◌∷◌, [], ◌<◌, length, IfOk};
ghost use Rattle.ir_print.specs.Functions.{function};
ghost use Rattle.ir_print.specs.Modules as modules;
ghost use Rattle.ir_print.specs.Variables.{variable};
ghost use Rattle.ir_print.specs.Wrote.{Wrote};

use crate::function::put_function;
use crate::token::{string, word};
use crate::variable::put_variable;
use ir_tree::{Function, GlobalValue, Module, Text, Variable};
use std::alloc::{AllocError, Global};

/// `target NAME = "TEXT"`, where the text isn't empty.
fn target_lines(name: &[u8], text: &[u8], out: &mut Vec<u8>) -> Result<(), AllocError>
    requires { 0 < length name.now }
    ensures { IfOk result (λ _. out.new.items ≡ out.old.items ++ modules.text_of (modules.target_lines name.now text.now)) }
{
    match text {
        [] => Ok(()),
        [_, ..] => {
            word(b"target ", name, out)?;
            string(b" = ", text, out)?;
            out.push(b'\n')?;
            Ok(())
        }
    }
}

fn global_value(alloc: Global, global: &GlobalValue, out: &mut Vec<u8>) -> Result<(), AllocError>
    ensures { IfOk result (λ _. Wrote (modules.global_value global.now) out.old.items out.new.items) }
{
    match global {
        GlobalValue::Variable(v) => put_variable(alloc, v, out),
        GlobalValue::Function(f) => put_function(f, out),
    }
}

fn global_values(
    alloc: Global,
    globals: &[GlobalValue],
    out: &mut Vec<u8>,
) -> Result<(), AllocError>
    ensures { IfOk result (λ _. out.new.items ≡ out.old.items ++ modules.text_of (modules.global_values globals.now)) }
{
    'each: for global in globals {
        global_value(alloc, global, out)?;
        out.push(b'\n')?;
    }
    Ok(())
}

/// The text of a module: its target lines, where they aren't empty, and its global values in the order of the tree
/// (LangRef, "Module Structure").
pub fn print(alloc: Global, m: &Module) -> Result<Text, AllocError>
    ensures { IfOk result (λ text. text ≡ modules.module_text m.now) }
{
    let mut out = Vec::new(alloc);
    target_lines(b"datalayout", m.datalayout.as_slice(), &mut out)?;
    target_lines(b"triple", m.triple.as_slice(), &mut out)?;
    global_values(alloc, m.globals.as_slice(), &mut out)?;
    Ok(Text::of(out))
}

/// The text of one function, defined or declared, as it stands in the text of a module.
pub fn print_function(alloc: Global, f: &Function) -> Result<Text, AllocError>
    ensures { IfOk result (λ text. text ≡ modules.text_of (function f.now ∷ [])) }
{
    let mut out = Vec::new(alloc);
    put_function(f, &mut out)?;
    out.push(b'\n')?;
    Ok(Text::of(out))
}

/// The text of one variable, defined or declared, as it stands in the text of a module.
pub fn print_variable(alloc: Global, v: &Variable) -> Result<Text, AllocError>
    ensures { IfOk result (λ text. text ≡ modules.text_of (variable v.now ∷ [])) }
{
    let mut out = Vec::new(alloc);
    put_variable(alloc, v, &mut out)?;
    out.push(b'\n')?;
    Ok(Text::of(out))
}
