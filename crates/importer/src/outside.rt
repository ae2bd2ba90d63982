//! Declarations of the functions that the system gives to a program (ISO C, section 7.21.7).
ghost use Rattle.std.specs.Prelude.{◌≡◌, ◌∷◌, [], IfOk};
ghost use Rattle.merge_meaning.specs.Hosts.{getchar, host, putchar};
ghost use Rattle.importer.specs.Brought.{value_named};

use ir_tree::{Function, GlobalValue, Linkage, Param, Reg, Rows, Symbol, Text};
use std::alloc::{AllocError, Global};

/// The declaration of a function of this name that takes these parameters.
fn host(alloc: Global, name: &[u8], params: Rows<Param>) -> Result<GlobalValue, AllocError>
    ensures { IfOk result (λ value. value ≡ host name.now params) }
{
    let name = Text::copied(alloc, name)?;
    Ok(GlobalValue::Function(Function {
        symbol: Symbol { home: None, name },
        linkage: Linkage::External,
        result: Some(Reg::Int(32)),
        params,
        noinline: false,
        optnone: false,
        blocks: Rows::new(alloc),
    }))
}

fn getchar(alloc: Global) -> Result<GlobalValue, AllocError>
    ensures { IfOk result (λ value. value ≡ getchar) }
{
    host(alloc, b"getchar", Rows::new(alloc))
}

fn putchar(alloc: Global) -> Result<GlobalValue, AllocError>
    ensures { IfOk result (λ value. value ≡ putchar) }
{
    let mut params = Rows::new(alloc);
    params.push(Param {
        local: 0,
        reg: Reg::Int(32),
    })?;
    host(alloc, b"putchar", params)
}

/// The declaration of the system's function of this name.
pub(crate) fn host_named(alloc: Global, name: &[u8]) -> Result<Option<GlobalValue>, AllocError>
    ensures { IfOk result (λ found. found ≡ value_named (getchar ∷ putchar ∷ []) name.now) }
{
    if name == b"getchar".as_slice() {
        return Ok(Some(getchar(alloc)?));
    }
    if name == b"putchar".as_slice() {
        return Ok(Some(putchar(alloc)?));
    }
    Ok(None)
}
