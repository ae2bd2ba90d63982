//! What a module's global value says to other modules.
ghost use Rattle.std.specs.Prelude.{◌≡◌};
ghost use Rattle.symbol_resolve.specs.Mentions.{function_standing, standing_of, variable_standing};

use ir_tree::{Function, Linkage, Variable};

/// A function or a variable.
#[derive(Clone, Copy, Debug, PartialEq, Eq)]
pub enum SymbolKind {
    Function,
    Variable,
}

/// What a name is in a module that mentions it.
#[derive(Clone, Copy, Debug, PartialEq, Eq)]
pub enum Standing {
    /// An external definition.
    Strong,
    /// A weak or linkonce definition.
    Weak,
    /// A declaration, or a body that counts as one.
    Declared,
}

/// What a definition of this linkage is to others; `None` where it is local to its module.
fn standing_of(linkage: Linkage) -> Option<Standing>
    ensures { result ≡ standing_of linkage }
{
    match linkage {
        Linkage::Private | Linkage::Internal => None,
        Linkage::External => Some(Standing::Strong),
        Linkage::Linkonce | Linkage::LinkonceOdr | Linkage::Weak | Linkage::WeakOdr => {
            Some(Standing::Weak)
        }
        Linkage::AvailableExternally => Some(Standing::Declared),
    }
}

/// What a variable is to other modules.
pub(crate) fn variable_standing(variable: &Variable) -> Option<Standing>
    ensures { result ≡ variable_standing variable.now.init variable.now.linkage }
{
    match &variable.init {
        None => Some(Standing::Declared),
        Some(_) => standing_of(variable.linkage),
    }
}

/// What a function is to other modules.
pub(crate) fn function_standing(function: &Function) -> Option<Standing>
    ensures { result ≡ function_standing function.now.blocks function.now.linkage }
{
    match function.blocks.as_slice() {
        [] => Some(Standing::Declared),
        [_, ..] => standing_of(function.linkage),
    }
}
