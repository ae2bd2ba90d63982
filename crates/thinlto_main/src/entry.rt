//! The one call of the program.
ghost use Rattle.std.specs.Prelude.{ℕ, List, ◌↔◌, ◌≡◌, ◌≤◌, ◌⊎◌, IfErr, OnOk, map, string_bytes};
ghost use Rattle.lto_fault.specs.Texts.{refusal_text};
ghost use Rattle.lto_fault.specs.declared.kind.RefusalKind.{RefusalKind};
ghost use Rattle.lto_fault.specs.declared.refusal.Refusal.{Refusal};
ghost use Rattle.lto_fault.specs.Pushing.{Hears};
ghost use Rattle.cache_slot.specs.Decoded.{decoded};
ghost use Rattle.lto_outside.specs.Calls.{DidNoPut};
ghost use Rattle.lto_outside.specs.Honest.{IsHonest};
ghost use Rattle.lto_outside.specs.Seen.{stream_seen};
ghost use Rattle.lto_outside.specs.Store.{Stays};
ghost use Rattle.thinlto_main.specs.Answers.{IsRefusal, IsUnfitted, IsUnlinked, IsUnreturned, Says, Succeeds, causes};
ghost use Rattle.thinlto_main.specs.Asking.{AskNothing, Asked};
ghost use Rattle.run_program.specs.Causes.{OnNoMemory, OnReadFault, OnRefused, OnUnfit, OnUnlinked, OnUnreturned, OnUnused, OnUnwritten, OnUsage, OnWriteFault};
ghost use Rattle.thinlto_main.specs.Honest.{HonestEntry};
ghost use Rattle.thinlto_main.specs.Keys.{LeavesDisk};
ghost use Rattle.thinlto_main.specs.Seen.{Untouched, rest_seen, seen};
ghost use Rattle.run_program.specs.Streams.{notes_seen};
ghost use Rattle.thinlto_main.specs.Telling.{CanDo, MustNotBegin, MustNotLink, MustNotReturn, MustRefuse, told};

use crate::command::do_command;
use crate::status::Status;
use link_one::{accepted_is_not_refused, refused_is_one, unlinked_is_one};
use lto_fault::say;
use lto_outside::{ByteIn, ByteOut, CacheDisk, Files, Gate};
use lto_words::one_command;
use std::alloc::Global;
use std::sync::Wait;
use std::thread::Threads;
use thin_link::one_answer;

/// How a command ended, and the disk that it was given.
#[derive(Drop)]
pub struct Ended<D> {
    pub status: Status,
    pub disk: D,
}

/// The linker's one call: it does the command that the words are.
///
/// The words are those behind the program's own name. `Refusal::NoMemory` may come at any time before a file is put or a
/// byte printed, and in a run; the clause `out_of_memory` says what was done then.
pub fn top<
    R: Threads + Wait + Sync,
    F: Files,
    D: CacheDisk + Send,
    G: Gate + Sync,
    I: ByteIn,
    O: ByteOut,
    N: ByteOut,
>(
    rt: &R,
    alloc: Global,
    words: &[String],
    files: &mut F,
    disk: D,
    gate: &G,
    input: &mut I,
    out: &mut O,
    notes: &mut N,
) -> Ended<D>
    requires meaning { (key text : List ℕ) → D.fits key text ↔ HonestEntry key text }

    // 1: the words are no command that the program does, and nothing was touched.
    ensures usage { OnUsage result.status (AskNothing (map string_bytes words.now) × Untouched (seen F.did F.held F.faults O.sent O.faults files.old files.new out.old out.new) × (input.new ≡ input.old)) }

    // 2: a fetch of this name failed, or in a run a read of the input, and its count of faults rose.
    ensures cannot_read { OnReadFault result.status (λ name. Asked (map string_bytes words.now) (λ c. (causes c (seen F.did F.held F.faults O.sent O.faults files.old files.new out.old out.new) (rest_seen I.left I.faults (IsHonest decoded D.fits (D.held disk)) input.old input.new)).unread name)) }

    // 3: of the files this is the first that is too long, or is read as no sound module within the limits; this is its first fault.
    // Or the list file of a batch is too long, or this is its first line that is no link.
    ensures refused { OnRefused result.status (λ file line kind. Asked (map string_bytes words.now) (λ c. (causes c (seen F.did F.held F.faults O.sent O.faults files.old files.new out.old out.new) (rest_seen I.left I.faults (IsHonest decoded D.fits (D.held disk)) input.old input.new)).refused file line kind)) }

    // 4: the modules that were read have no thin link, for this reason; or the root of a run isn't a function that takes the arguments.
    ensures unlinked { OnUnlinked result.status (λ why. Asked (map string_bytes words.now) (λ c. (causes c (seen F.did F.held F.faults O.sent O.faults files.old files.new out.old out.new) (rest_seen I.left I.faults (IsHonest decoded D.fits (D.held disk)) input.old input.new)).unlinked why)) }
    ensures unfit { OnUnfit result.status (λ name. Asked (map string_bytes words.now) (λ c. (causes c (seen F.did F.held F.faults O.sent O.faults files.old files.new out.old out.new) (rest_seen I.left I.faults (IsHonest decoded D.fits (D.held disk)) input.old input.new)).unfit name)) }

    // 5: the put of this name or a push failed, and the count of faults rose. The file may hold, and the output have got, a front of the text.
    // The files of a batch's lines before it are put.
    ensures cannot_write { OnWriteFault result.status (λ name. Asked (map string_bytes words.now) (λ c. (causes c (seen F.did F.held F.faults O.sent O.faults files.old files.new out.old out.new) (rest_seen I.left I.faults (IsHonest decoded D.fits (D.held disk)) input.old input.new)).unwritten name)) }

    // 6: memory ran out before anything was put or printed, or in a run or behind it.
    ensures out_of_memory { OnNoMemory result.status ((Untouched (seen F.did F.held F.faults O.sent O.faults files.old files.new out.old out.new) × (input.new ≡ input.old)) ⊎ Asked (map string_bytes words.now) (λ c. (causes c (seen F.did F.held F.faults O.sent O.faults files.old files.new out.old out.new) (rest_seen I.left I.faults (IsHonest decoded D.fits (D.held disk)) input.old input.new)).memory)) }

    // 7, 8, 9: the definition's run, with 0 as every free choice, ended in undefined behaviour or at an uninitialised byte, or hadn't ended.
    ensures unreturned { OnUnreturned result.status (λ why. Asked (map string_bytes words.now) (λ c. (causes c (seen F.did F.held F.faults O.sent O.faults files.old files.new out.old out.new) (rest_seen I.left I.faults (IsHonest decoded D.fits (D.held disk)) input.old input.new)).unreturned why)) }

    // 0: the command was done. Of a link, and of each line of a batch, both promises: reproducible bytes and preserved behaviour. Of a
    // run, that it is the definition's.
    ensures done { OnOk result.status (Asked (map string_bytes words.now) (λ c. (causes c (seen F.did F.held F.faults O.sent O.faults files.old files.new out.old out.new) (rest_seen I.left I.faults (IsHonest decoded D.fits (D.held disk)) input.old input.new)).done)) }

    // Where the files tell what they hold: all that was put, or a front of it, or what they held.
    ensures holds_done { OnOk result.status (Asked (map string_bytes words.now) (λ c. (told c (seen F.did F.held F.faults O.sent O.faults files.old files.new out.old out.new) (rest_seen I.left I.faults (IsHonest decoded D.fits (D.held disk)) input.old input.new)).done)) }
    ensures holds_part { OnWriteFault result.status (λ name. Asked (map string_bytes words.now) (λ c. (told c (seen F.did F.held F.faults O.sent O.faults files.old files.new out.old out.new) (rest_seen I.left I.faults (IsHonest decoded D.fits (D.held disk)) input.old input.new)).unwritten name)) }
    ensures holds_refused { OnRefused result.status (λ file line kind. Asked (map string_bytes words.now) (λ c. (told c (seen F.did F.held F.faults O.sent O.faults files.old files.new out.old out.new) (rest_seen I.left I.faults (IsHonest decoded D.fits (D.held disk)) input.old input.new)).refused file line kind)) }
    ensures holds_unlinked { OnUnlinked result.status (λ why. Asked (map string_bytes words.now) (λ c. (told c (seen F.did F.held F.faults O.sent O.faults files.old files.new out.old out.new) (rest_seen I.left I.faults (IsHonest decoded D.fits (D.held disk)) input.old input.new)).unlinked why)) }
    ensures holds_unfit { OnUnfit result.status (λ name. Asked (map string_bytes words.now) (λ c. (told c (seen F.did F.held F.faults O.sent O.faults files.old files.new out.old out.new) (rest_seen I.left I.faults (IsHonest decoded D.fits (D.held disk)) input.old input.new)).unfit name)) }
    ensures holds_unreturned { OnUnreturned result.status (λ why. Asked (map string_bytes words.now) (λ c. (told c (seen F.did F.held F.faults O.sent O.faults files.old files.new out.old out.new) (rest_seen I.left I.faults (IsHonest decoded D.fits (D.held disk)) input.old input.new)).unreturned why)) }
    ensures stay { OnUnwritten result.status (Stays (F.held files.old) (F.held files.new)) }

    // Where nothing is in the way it is done, and where one thing alone is, the answer tells it, unless memory runs out.
    ensures complete { Asked (map string_bytes words.now) (λ c. CanDo c (seen F.did F.held F.faults O.sent O.faults files.old files.new out.old out.new) (rest_seen I.left I.faults (IsHonest decoded D.fits (D.held disk)) input.old input.new)) → Succeeds result.status }
    ensures complete_refusal { (file : List ℕ) (line : ℕ) (kind : RefusalKind) → Asked (map string_bytes words.now) (λ c. MustRefuse c (seen F.did F.held F.faults O.sent O.faults files.old files.new out.old out.new) file line kind) → IsRefusal result.status file line kind }
    ensures complete_unlinked { (why : Refusal) → Asked (map string_bytes words.now) (λ c. MustNotLink c (seen F.did F.held F.faults O.sent O.faults files.old files.new out.old out.new) why) → IsUnlinked result.status why }
    ensures complete_unfit { (name : List ℕ) → Asked (map string_bytes words.now) (λ c. MustNotBegin c (seen F.did F.held F.faults O.sent O.faults files.old files.new out.old out.new) name) → IsUnfitted result.status name }
    ensures complete_unreturned { (why : Refusal) → Asked (map string_bytes words.now) (λ c. MustNotReturn c (seen F.did F.held F.faults O.sent O.faults files.old files.new out.old out.new) (rest_seen I.left I.faults (IsHonest decoded D.fits (D.held disk)) input.old input.new) why) → IsUnreturned result.status why }

    // Before the first put nothing was put, and before a run nothing was taken from the input or printed.
    ensures no_put { OnUnwritten result.status (DidNoPut (λ calls. F.did files.old calls files.new)) }
    ensures unused { OnUnused result.status ((input.new ≡ input.old) × (out.new ≡ out.old)) }
    ensures later { F.faults files.old ≤ F.faults files.new }

    // What is said, and what isn't used.
    ensures notes { IfErr result.status (λ why. Hears (stream_seen N.sent N.faults notes.old notes.new) (refusal_text why)) }
    ensures says { OnOk result.status (Asked (map string_bytes words.now) (λ c. Says c (seen F.did F.held F.faults O.sent O.faults files.old files.new out.old out.new) (rest_seen I.left I.faults (IsHonest decoded D.fits (D.held disk)) input.old input.new) (notes_seen N.sent N.faults notes.old notes.new))) }

    // What the disk of a cache holds: an honest one is still honest, and every file is as it was, but those of the directory that the
    // words name which have the name of a key of the command. Where memory runs out or the words are no command, it is as it was.
    ensures disk { (D.held result.disk ≡ D.held disk) ⊎ Asked (map string_bytes words.now) (λ c. LeavesDisk c (λ calls. F.did files.old calls files.new) D.fits (D.held disk) (D.held result.disk)) }
{
    accepted_is_not_refused();
    refused_is_one();
    one_command();
    one_answer();
    unlinked_is_one();
    let ended = do_command(rt, alloc, gate, words, files, disk, input, out, notes);
    say(notes, &ended.status);
    ended
}
