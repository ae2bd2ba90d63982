//! The report of a thin link.
ghost use Rattle.std.specs.Prelude.{◌≡◌, ◌≢◌, length, IfOk, IfErr};
ghost use Rattle.lto_fault.specs.declared.refusal.Refusal.TheVariants.{NoMemory};
ghost use Rattle.thin_link.specs.Linking.{IsIndexReport};
ghost use Rattle.thin_link.specs.Refusing.{IsRefused};
ghost use Rattle.thin_link.specs.Reports.{IsReport};
ghost use Rattle.thin_link.specs.Views.{rows};

use crate::deciding::{ThinLink, thin_link};
use crate::report_text::report;
use ir_tree::{Text, Verified};
use lto_fault::Refusal;
use std::alloc::Global;

/// What was decided, as text.
fn report_of(alloc: Global, link: &ThinLink, files: &[Text]) -> Result<Text, Refusal>
    requires live { length link.now.live ≡ length link.now.index.symbols }
    requires imports { length (rows link.now.imports.items) ≡ length link.now.index.modules }
    requires files { length files.now ≡ length link.now.index.modules }
    ensures done { IfOk result (λ text. IsReport link.now.index link.now.live (rows link.now.imports.items) files.now text) }
    ensures refused { IfErr result (λ why. why ≡ NoMemory) }
{
    match report(alloc, &link.index, &link.live, &link.imports, files) {
        Ok(text) => Ok(text),
        Err(_) => Err(Refusal::NoMemory),
    }
}

/// What the thin link of these modules decides, as text ([`report`]), or why it is refused, as
/// [`thin_link`] says.
pub fn index(
    alloc: Global,
    files: &[Text],
    modules: &[Verified],
    exports: &[Text],
    import_limit: u32,
) -> Result<Text, Refusal>
    requires { length files.now ≡ length modules.now }
    ensures done { IfOk result (λ text. IsIndexReport files.now modules.now exports.now import_limit text) }
    ensures refused { IfErr result (λ why. why ≢ NoMemory → IsRefused files.now modules.now exports.now why) }
{
    let link = thin_link(alloc, files, modules, exports, import_limit)?;
    report_of(alloc, &link, files)
}
