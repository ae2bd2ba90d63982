//! What a global value defines (LangRef, "Linkage Types").
ghost use Rattle.std.specs.Prelude.{◌≡◌, option_copied};
ghost use Rattle.ir_meaning.specs.Programs.{defined_blocks, defined_init, symbol_of};

use ir_tree::{Block, Function, GlobalValue, Init, Symbol, Variable};

/// The body of a function, where it defines it; none where the function is declared alone.
pub fn defined_blocks(function: &Function) -> &[Block]
    ensures { result.now ≡ defined_blocks function.now }
{
    if function.linkage.defines() {
        function.blocks.as_slice()
    } else {
        &[]
    }
}

/// The initialiser of a variable, where it defines it.
pub fn defined_init(variable: &Variable) -> Option<&Init>
    ensures { option_copied result ≡ defined_init variable.now }
{
    if variable.linkage.defines() {
        variable.init.as_ref()
    } else {
        None
    }
}

/// The symbol of a global value.
pub fn symbol_of(global: &GlobalValue) -> &Symbol
    ensures { result.now ≡ symbol_of global.now }
{
    match global {
        GlobalValue::Function(function) => &function.symbol,
        GlobalValue::Variable(variable) => &variable.symbol,
    }
}
