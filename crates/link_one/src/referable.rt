//! The names by which other units may refer to what is compiled.
ghost use Rattle.std.specs.Prelude.{◌≡◌, ◌++◌, ◌∷◌, [], OnOk};
ghost use Rattle.importer.specs.Tables.{values};
ghost use Rattle.link_one.specs.Units.{linkage_in, shown};

use ir_flow::AnalysedValue;
use ir_meaning::symbol_of;
use ir_tree::{GlobalValue, Linkage, Rows, Text};
use std::alloc::{AllocError, Global};

fn linkage_in(global: &GlobalValue) -> Linkage
    ensures { result ≡ linkage_in global.now }
{
    match global {
        GlobalValue::Variable(variable) => variable.linkage,
        GlobalValue::Function(function) => function.linkage,
    }
}

/// Adds the value's name, unless it is local to the module.
fn push_name(alloc: Global, names: &mut Rows<Text>, global: &GlobalValue) -> Result<(), AllocError>
    ensures { OnOk result (names.new ≡ names.old ++ shown (global.now ∷ [])) }
{
    if !linkage_in(global).is_local() {
        names.push(Text::copied(alloc, symbol_of(global).name.as_slice())?)?;
    }
    Ok(())
}

/// Adds the names of what isn't local to the module.
pub(crate) fn push_shown(
    alloc: Global,
    names: &mut Rows<Text>,
    globals: &[&AnalysedValue],
) -> Result<(), AllocError>
    ensures { OnOk result (names.new ≡ names.old ++ shown (values globals.now)) }
{
    for global in globals {
        push_name(alloc, names, global.value())?;
    }
    Ok(())
}

/// Adds copies of these names.
pub(crate) fn push_copies(
    alloc: Global,
    names: &mut Rows<Text>,
    more: &[Text],
) -> Result<(), AllocError>
    ensures { OnOk result (names.new ≡ names.old ++ more.now) }
{
    for name in more {
        names.push(Text::copied(alloc, name.as_slice())?)?;
    }
    Ok(())
}
