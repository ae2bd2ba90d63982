//! Final names, which no two live symbols have.
ghost use Rattle.std.specs.Prelude.{◌≡◌, ◌≢◌, IfErr, OnOk, length};
ghost use Rattle.lto_fault.specs.declared.refusal.Refusal.TheVariants.{NoMemory};
ghost use Rattle.combined_index.specs.Finals.{NoneTaken, final_names};
ghost use Rattle.link_one.specs.Refusing.{IsLeastTaken};

use combined_index::{NamesError, final_names};
use ir_tree::Text;
use lto_fault::Refusal;
use std::alloc::Global;
use thin_link::ThinLink;

/// That no two live symbols have one final name, or the least name that two have.
pub(crate) fn named(alloc: Global, decided: &ThinLink<'_>, suffixes: &[Text]) -> Result<(), Refusal>
    requires marks { length decided.now.live ≡ length decided.now.index.symbols }
    requires suffixes { length suffixes.now ≡ length decided.now.index.modules }
    ensures named { OnOk result (NoneTaken (final_names suffixes.now decided.now.index.symbols decided.now.live)) }
    ensures taken { IfErr result (λ why. why ≢ NoMemory → IsLeastTaken (final_names suffixes.now decided.now.index.symbols decided.now.live) why) }
{
    match final_names(alloc, &decided.index, &decided.live, suffixes) {
        Ok(_) => Ok(()),
        Err(NamesError::NoMemory) => Err(Refusal::NoMemory),
        Err(NamesError::Fault(taken)) => Err(Refusal::NameTaken { name: taken.name }),
    }
}
