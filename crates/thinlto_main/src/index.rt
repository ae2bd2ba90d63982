//! The index: all files are fetched and read, and what their link decides is printed.
ghost use Rattle.std.specs.Prelude.{◌≡◌, ◌≤◌, IfOk, IfErr, length};
ghost use Rattle.thin_link.specs.Linking.{IsIndexReport};
ghost use Rattle.thin_link.specs.Refusing.{IsRefused};
ghost use Rattle.thinlto_main.specs.Answers.{reporting};
ghost use Rattle.run_program.specs.Causes.{Because, Comes, never};
ghost use Rattle.thinlto_main.specs.Seen.{seen};

use crate::modules::{modules, texts};
use ir_tree::{Text, Verified};
use link_one::accepted_is_not_refused;
use lto_fault::{Refusal, push_all};
use lto_outside::{ByteOut, Files};
use lto_words::FileName;
use run_program::output;
use std::alloc::Global;
use thin_link::one_answer;

/// The report of these modules, or why they have no thin link.
fn report(
    alloc: Global,
    names: &[FileName],
    modules: &[Verified],
    exports: &[Text],
    import_limit: u32,
) -> Result<Text, Refusal>
    requires { length names.now ≡ length modules.now }
    ensures done { IfOk result (λ text. IsIndexReport names.now modules.now exports.now import_limit text) }
    ensures because { IfErr result (Because (record never { unlinked = IsRefused names.now modules.now exports.now; memory = Unit {0} })) }
{
    let Ok(files) = texts(alloc, names) else {
        return Err(Refusal::NoMemory);
    };
    thin_link::index(alloc, files.as_slice(), modules, exports, import_limit)
}

/// Does an index.
pub(crate) fn index<F: Files, O: ByteOut>(
    alloc: Global,
    files: &mut F,
    out: &mut O,
    exports: &[Text],
    import_limit: u32,
    names: &[FileName],
) -> Result<(), Refusal>
    ensures answer { Comes (reporting exports.now import_limit names.now (seen F.did F.held F.faults O.sent O.faults files.old files.new out.old out.new)) result }
    ensures later { F.faults files.old ≤ F.faults files.new }
{
    accepted_is_not_refused();
    one_answer();
    let modules = match modules(alloc, files, names) {
        Ok(modules) => modules,
        Err(why) => return Err(why),
    };
    let all = modules.as_slice();
    let text = match report(alloc, names, all, exports, import_limit) {
        Ok(text) => text,
        Err(why) => return Err(why),
    };
    let Ok(name) = output(alloc) else {
        return Err(Refusal::NoMemory);
    };
    if push_all(out, text.as_slice()) {
        Ok(())
    } else {
        Err(Refusal::WriteFault { name })
    }
}
