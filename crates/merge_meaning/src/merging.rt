//! The merged program, as the list of its global values.
ghost use Rattle.std.specs.Prelude.{◌≡◌, All, IfOk, OnOk};
ghost use Rattle.ir_tree.specs.Wholes.{IsVerified};
ghost use Rattle.ir_tree.specs.Symbols.{symbol_eq};
ghost use Rattle.ir_meaning.specs.Programs.{is_declared, shared};
ghost use Rattle.ir_meaning.specs.Runnable.{AreRunnable};
ghost use Rattle.symbol_resolve.specs.Resolved.{symbols};
ghost use Rattle.merge_meaning.specs.Given.{merged_in};
ghost use Rattle.merge_meaning.specs.Merged.{declaration, merged_globals, with_host};

use crate::giving::give;
use ir_flow::AnalysedValue;
use ir_meaning::symbol_of;
use ir_tree::{Function, GlobalValue, Linkage, Reg, Rows, Symbol, Text, Verified};
use std::alloc::{AllocError, Global};
use symbol_resolve::Resolution;

/// What the modules give by this resolution, in command order; each was verified.
fn given(
    alloc: Global,
    modules: &[Verified],
    resolution: &Resolution,
) -> Result<Rows<AnalysedValue>, AllocError>
    ensures rows { IfOk result (λ gs. gs ≡ merged_in resolution.now 0 modules.now) }
    ensures verified { OnOk result (All IsVerified modules.now) }
{
    let mut rows = Rows::new(alloc);
    let mut number: u32 = 0;
    for verified in modules {
        let unknown = Rows::new(alloc);
        give(
            alloc, &mut rows, None, number, verified, unknown, resolution,
        )?;
        let Some(next) = number.checked_add(1) else {
            return Err(AllocError);
        };
        number = next;
    }
    Ok(rows)
}

/// These values alone.
fn values_of(alloc: Global, marked: Rows<AnalysedValue>) -> Result<Rows<GlobalValue>, AllocError>
    ensures { IfOk result (λ gs. gs ≡ marked) }
{
    let mut rows = Rows::new(alloc);
    for value in marked.into_vec() {
        rows.push(value.into_value())?;
    }
    Ok(rows)
}

/// Whether this is the symbol of a name that modules share.
fn is_shared(symbol: &Symbol, name: &[u8]) -> bool
    ensures { result ≡ symbol_eq symbol.now (shared name.now) }
{
    match symbol.home {
        Some(_) => false,
        None => symbol.name.equals(name),
    }
}

/// Whether one of the global values has the symbol of a name that modules share.
fn is_declared(globals: &[GlobalValue], name: &[u8]) -> bool
    ensures { result ≡ is_declared globals.now (shared name.now) }
{
    globals
        .iter()
        .any(|global| is_shared(symbol_of(global), name))
}

/// A declaration of the symbol of a name that modules share.
fn declaration(alloc: Global, name: &[u8]) -> Result<GlobalValue, AllocError>
    ensures { IfOk result (λ g. g ≡ declaration name.now) }
{
    let name = Text::copied(alloc, name)?;
    Ok(GlobalValue::Function(Function {
        symbol: Symbol { home: None, name },
        linkage: Linkage::External,
        result: Some(Reg::Int(32)),
        params: Rows::new(alloc),
        noinline: false,
        optnone: false,
        blocks: Rows::new(alloc),
    }))
}

/// Declares a function of the outside behind the global values, where none of them has its symbol.
fn add_host(alloc: Global, rows: &mut Rows<GlobalValue>, name: &[u8]) -> Result<(), AllocError>
    ensures { OnOk result (rows.new ≡ with_host name.now rows.old) }
{
    if is_declared(rows.as_slice(), name) {
        return Ok(());
    }
    let made = declaration(alloc, name)?;
    rows.push(made)?;
    Ok(())
}

/// The global values that the modules mean together: the definitions that prevail, in which each name is the symbol that
/// it stands for in its module, and the functions of the outside behind them. The resolution is that of the modules. They can
/// be run: no symbol stands twice, instructions are formed, and initialisers fit their shapes.
///
/// Beside want of memory, `2^32` modules or more are refused as too many. Each global value is copied once, and each name
/// is looked up once.
pub fn program(
    alloc: Global,
    modules: &[Verified],
    resolution: &Resolution,
) -> Result<Rows<GlobalValue>, AllocError>
    requires { resolution.now ≡ symbols modules.now }
    ensures merged { IfOk result (λ gs. gs ≡ merged_globals modules.now) }
    ensures runnable { IfOk result (λ gs. AreRunnable gs) }
{
    let marked = given(alloc, modules, resolution)?;
    let mut rows = values_of(alloc, marked)?;
    add_host(alloc, &mut rows, b"putchar")?;
    add_host(alloc, &mut rows, b"getchar")?;
    Ok(rows)
}
