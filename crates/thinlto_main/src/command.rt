//! The words of the command line are read, and their command is done.
ghost use Rattle.std.specs.Prelude.{◌≡◌, ◌≤◌, ◌↔◌, ◌⊎◌, ℕ, List, OnErr, OnOk, map, string_bytes};
ghost use Rattle.cache_slot.specs.Decoded.{decoded};
ghost use Rattle.lto_outside.specs.Honest.{IsHonest};
ghost use Rattle.lto_outside.specs.Seen.{files_seen};
ghost use Rattle.thinlto_main.specs.Answers.{Says, causes_of, obeyed, reporting};
ghost use Rattle.thinlto_main.specs.Asking.{Asked};
ghost use Rattle.run_program.specs.Causes.{Comes};
ghost use Rattle.thinlto_main.specs.Honest.{HonestEntry, IsTrustedBy};
ghost use Rattle.thinlto_main.specs.Keys.{DiskKept, IsKeyOfFiles, LeavesDisk};
ghost use Rattle.thinlto_main.specs.Linking.{linking};
ghost use Rattle.thinlto_main.specs.Modules.{AreRead};
ghost use Rattle.thinlto_main.specs.Running.{SaysReturned, running};
ghost use Rattle.thinlto_main.specs.Seen.{rest_seen, seen};
ghost use Rattle.run_program.specs.Streams.{notes_seen, streams_seen};

use crate::batch::batch;
use crate::entry::Ended;
use crate::index::index;
use crate::link::link;
use crate::run::run;
use crate::status::Status;
use ir_tree::{Rows, Text};
use lto_fault::Refusal;
use lto_outside::{ByteIn, ByteOut, CacheDisk, Files, Gate};
use lto_words::{Command, FileName, LinkOptions, WordsError, command, one_command};
use run_program::RunOptions;
use std::alloc::Global;
use std::sync::Wait;
use std::thread::Threads;

/// Does the link that a command asks for, over the cache that its options ask for on this disk.
fn obey_link<R: Threads + Wait + Sync, F: Files, D: CacheDisk + Send, G: Gate + Sync>(
    rt: &R,
    alloc: Global,
    files: &mut F,
    disk: D,
    gate: &G,
    options: LinkOptions,
    out: FileName,
    names: Rows<FileName>,
) -> Ended<D>
    requires meaning { (key text : List ℕ) → D.fits key text ↔ HonestEntry key text }
    ensures answer { Comes (linking options out names (IsTrustedBy options (IsHonest decoded D.fits (D.held disk))) (files_seen F.did F.held F.faults files.old files.new)) result.status }
    ensures disk { ∥ DiskKept D.fits (IsKeyOfFiles options names (λ calls. F.did files.old calls files.new)) options.cache (D.held disk) (D.held result.disk) ∥₁ }
    ensures later { F.faults files.old ≤ F.faults files.new }
{
    link(
        rt,
        alloc,
        files,
        disk,
        gate,
        &options,
        out,
        names.as_slice(),
    )
}

/// Does the index that a command asks for.
fn obey_index<F: Files, O: ByteOut>(
    alloc: Global,
    files: &mut F,
    out: &mut O,
    exports: Rows<Text>,
    import_limit: u32,
    names: Rows<FileName>,
) -> Status
    ensures answer { Comes (reporting exports import_limit names (seen F.did F.held F.faults O.sent O.faults files.old files.new out.old out.new)) result }
    ensures later { F.faults files.old ≤ F.faults files.new }
{
    index(
        alloc,
        files,
        out,
        exports.as_slice(),
        import_limit,
        names.as_slice(),
    )
}

/// Does the run that a command asks for. Where it returned, the notes get what it says.
fn obey_run<F: Files, I: ByteIn, O: ByteOut, N: ByteOut>(
    alloc: Global,
    files: &mut F,
    input: &mut I,
    out: &mut O,
    notes: &mut N,
    options: RunOptions,
    names: Rows<FileName>,
) -> Status
    ensures answer { Comes (running options.root options.args options.steps names (files_seen F.did F.held F.faults files.old files.new) (streams_seen I.left I.faults O.sent O.faults input.old input.new out.old out.new)) result }
    ensures says { OnOk result (SaysReturned (AreRead names (λ calls. F.did files.old calls files.new)) options.root options.args options.steps names (streams_seen I.left I.faults O.sent O.faults input.old input.new out.old out.new) (notes_seen N.sent N.faults notes.old notes.new)) }
    ensures silent { OnErr result (notes.new ≡ notes.old) }
    ensures later { F.faults files.old ≤ F.faults files.new }
{
    run(alloc, files, input, out, notes, &options, names.as_slice())
}

/// Does a command. Where it is done, the notes get what it says. No modules are generated.
fn obey<
    R: Threads + Wait + Sync,
    F: Files,
    D: CacheDisk + Send,
    G: Gate + Sync,
    I: ByteIn,
    O: ByteOut,
    N: ByteOut,
>(
    rt: &R,
    alloc: Global,
    files: &mut F,
    disk: D,
    gate: &G,
    input: &mut I,
    out: &mut O,
    notes: &mut N,
    command: Command,
) -> Ended<D>
    requires meaning { (key text : List ℕ) → D.fits key text ↔ HonestEntry key text }
    ensures answer { Comes (obeyed command (seen F.did F.held F.faults O.sent O.faults files.old files.new out.old out.new) (rest_seen I.left I.faults (IsHonest decoded D.fits (D.held disk)) input.old input.new)) result.status }
    ensures says { OnOk result.status (Says command (seen F.did F.held F.faults O.sent O.faults files.old files.new out.old out.new) (rest_seen I.left I.faults (IsHonest decoded D.fits (D.held disk)) input.old input.new) (notes_seen N.sent N.faults notes.old notes.new)) }
    ensures silent { OnErr result.status (notes.new ≡ notes.old) }
    ensures disk { LeavesDisk command (λ calls. F.did files.old calls files.new) D.fits (D.held disk) (D.held result.disk) }
    ensures later { F.faults files.old ≤ F.faults files.new }
{
    match command {
        Command::Link {
            options,
            out: name,
            files: names,
        } => obey_link(rt, alloc, files, disk, gate, options, name, names),
        Command::Index {
            exports,
            import_limit,
            files: names,
        } => {
            let status = obey_index(alloc, files, out, exports, import_limit, names);
            Ended { status, disk }
        }
        Command::Batch { options, list } => { batch(rt, alloc, files, disk, gate, &options, &list) }
        Command::Run {
            root,
            args,
            steps,
            files: names,
        } => {
            let options = RunOptions { root, args, steps };
            let status = obey_run(alloc, files, input, out, notes, options, names);
            Ended { status, disk }
        }
        Command::Gen { .. } => Ended {
            status: Err(Refusal::Usage),
            disk,
        },
    }
}

/// Does the command that the words are. Where it is done, the notes get what it says.
pub(crate) fn do_command<
    R: Threads + Wait + Sync,
    F: Files,
    D: CacheDisk + Send,
    G: Gate + Sync,
    I: ByteIn,
    O: ByteOut,
    N: ByteOut,
>(
    rt: &R,
    alloc: Global,
    gate: &G,
    words: &[String],
    files: &mut F,
    disk: D,
    input: &mut I,
    out: &mut O,
    notes: &mut N,
) -> Ended<D>
    requires meaning { (key text : List ℕ) → D.fits key text ↔ HonestEntry key text }
    ensures answer { Comes (causes_of (map string_bytes words.now) (seen F.did F.held F.faults O.sent O.faults files.old files.new out.old out.new) (rest_seen I.left I.faults (IsHonest decoded D.fits (D.held disk)) input.old input.new)) result.status }
    ensures says { OnOk result.status (Asked (map string_bytes words.now) (λ c. Says c (seen F.did F.held F.faults O.sent O.faults files.old files.new out.old out.new) (rest_seen I.left I.faults (IsHonest decoded D.fits (D.held disk)) input.old input.new) (notes_seen N.sent N.faults notes.old notes.new))) }
    ensures silent { OnErr result.status (notes.new ≡ notes.old) }
    ensures disk { (D.held result.disk ≡ D.held disk) ⊎ Asked (map string_bytes words.now) (λ c. LeavesDisk c (λ calls. F.did files.old calls files.new) D.fits (D.held disk) (D.held result.disk)) }
    ensures later { F.faults files.old ≤ F.faults files.new }
{
    one_command();
    match command(alloc, words) {
        Ok(command) => obey(rt, alloc, files, disk, gate, input, out, notes, command),
        Err(WordsError::Usage) => Ended {
            status: Err(Refusal::Usage),
            disk,
        },
        Err(WordsError::NoMemory) => Ended {
            status: Err(Refusal::NoMemory),
            disk,
        },
    }
}
