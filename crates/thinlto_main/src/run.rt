//! The run of modules: their files are fetched, read and linked by their summaries, and what they mean together runs from its
//! root with the input and the output.
ghost use Rattle.std.specs.Prelude.{◌≡◌, ◌≤◌, [], ◌∷◌, IfErr, IfOk, OnErr, OnOk, length};
ghost use Rattle.lto_fault.specs.declared.refusal.Refusal.{Refusal};
ghost use Rattle.lto_outside.specs.Seen.{files_seen};
ghost use Rattle.thin_link.specs.Refusing.{IsRefused};
ghost use Rattle.run_program.specs.Causes.{Because, Comes, never};
ghost use Rattle.thinlto_main.specs.Modules.{AreRead};
ghost use Rattle.thinlto_main.specs.Running.{SaysReturned, running};
ghost use Rattle.run_program.specs.Streams.{notes_seen, streams_seen};

use crate::link::decided;
use crate::modules::modules;
use ir_tree::{Text, Verified};
use lto_fault::{Refusal, say_returned};
use lto_outside::{ByteIn, ByteOut, Files};
use lto_words::FileName;
use run_program::{RunOptions, run_merged};
use std::alloc::Global;
use std::slice::from_ref;

/// The import limit where none is given; no run is changed by it.
const IMPORT_LIMIT: u32 = 100;

/// Why these modules aren't linked with the root as their export, if they aren't.
fn linkable(
    alloc: Global,
    names: &[FileName],
    modules: &[Verified],
    root: &Text,
) -> Result<(), Refusal>
    requires { length names.now ≡ length modules.now }
    ensures linked { OnOk result ((why : Refusal) → IsRefused names.now modules.now (root.now ∷ []) why → ⊥) }
    ensures because { IfErr result (Because (record never { unlinked = IsRefused names.now modules.now (root.now ∷ []); memory = Unit {0} })) }
{
    decided(alloc, names, modules, from_ref(root), IMPORT_LIMIT)
}

/// Does a run. Where it returned, the notes get the line of what it returned, or a front of it.
pub(crate) fn run<F: Files, I: ByteIn, O: ByteOut, N: ByteOut>(
    alloc: Global,
    files: &mut F,
    input: &mut I,
    out: &mut O,
    notes: &mut N,
    options: &RunOptions,
    names: &[FileName],
) -> Result<(), Refusal>
    ensures answer { Comes (running options.now.root options.now.args options.now.steps names.now (files_seen F.did F.held F.faults files.old files.new) (streams_seen I.left I.faults O.sent O.faults input.old input.new out.old out.new)) result }
    ensures says { OnOk result (SaysReturned (AreRead names.now (λ calls. F.did files.old calls files.new)) options.now.root options.now.args options.now.steps names.now (streams_seen I.left I.faults O.sent O.faults input.old input.new out.old out.new) (notes_seen N.sent N.faults notes.old notes.new)) }
    ensures silent { OnErr result (notes.new ≡ notes.old) }
    ensures later { F.faults files.old ≤ F.faults files.new }
{
    let modules = match modules(alloc, files, names) {
        Ok(modules) => modules,
        Err(why) => return Err(why),
    };
    let all = modules.as_slice();
    match linkable(alloc, names, all, &options.root) {
        Ok(()) => {}
        Err(why) => return Err(why),
    }
    let returned = match run_merged(alloc, names, all, options, input, out) {
        Ok(returned) => returned,
        Err(why) => return Err(why),
    };
    say_returned(notes, returned);
    Ok(())
}
