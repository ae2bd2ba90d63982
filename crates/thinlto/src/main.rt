//! The program `thinlto`: the linker's one call (`thinlto_main`) over the real outside.
//!
//! `main` makes the real objects (`outside_real`): files, the disk of a cache, standard input and output, and notes on
//! standard error. It has [`top`] called with the words behind the program's own name, and ends with the status's number.
//! Words that can't be had are one empty word, which is no command.
//!
//! **Promise.** That of `thinlto_main::top`, whose condition on the disk is proved here: entries mean what a link makes
//! of their tasks.
//!
//! **Cost.** That of the call. The words are copied once.
//!
//! **Not shown.** That real files, streams and a cache directory keep and give what was written (`outside_real`), and
//! that `main` does no more than is said here: it has no clause, and is read.
#![tactic(auto)]

ghost use Rattle.std.specs.Prelude.{◌≡◌, ◌↔◌, ◌∷◌, ℕ, [], List, MatchOption};
ghost use Rattle.thinlto_main.specs.Exit.{exit_of};
ghost use Rattle.thinlto_main.specs.Honest.{HonestEntry};

use lto_outside::{ByteIn, ByteOut, CacheDisk, Files, Gate};
use outside_real::{RealDisk, RealFiles, RealGate, RealIn, RealOut};
use std::alloc::Global;
use std::process::ExitCode;
use std::rt::Env;
use std::slice::from_ref;
use std::sync::Wait;
use std::thread::Threads;
use std::{env, io};
use thinlto_main::{Ended, LinkMakes, status_of, top};

/// The words behind the program's own name, unless they can't be had.
fn all_words<R: Env + AllocGlobal>(rt: &R, alloc: Global) -> Option<Vec<String>> {
    env::args(rt).ok()?.skip(1).collect(alloc).ok()
}

/// The words that the program does: those that were had, or else this one alone.
fn given_words<'a>(words: &'a Option<Vec<String>>, no_word: &'a String) -> &'a [String]
    ensures { MatchOption words.now (result.now ≡ no_word.now ∷ []) (λ had. result.now ≡ had.items) }
{
    match words {
        Some(words) => words.as_slice(),
        None => from_ref(no_word),
    }
}

/// The number that the process ends with behind a command that ended so.
fn number_of<D: Drop>(ended: Ended<D>) -> u8
    ensures { result ≡ exit_of ended.status }
{
    status_of(&ended.status)
}

/// Does the command that these words are, and gives the number that the process ends with.
fn exit_status<
    R: Threads + Wait + Sync,
    F: Files + Drop,
    D: CacheDisk + Send + Drop,
    G: Gate + Sync,
    I: ByteIn + Drop,
    O: ByteOut + Drop,
    N: ByteOut + Drop,
>(
    rt: &R,
    alloc: Global,
    words: &[String],
    mut files: F,
    disk: D,
    gate: &G,
    mut input: I,
    mut out: O,
    mut notes: N,
) -> u8
    requires meaning { (key text : List ℕ) → D.fits key text ↔ HonestEntry key text }
{
    number_of(top(
        rt, alloc, words, &mut files, disk, gate, &mut input, &mut out, &mut notes,
    ))
}

fn main(rt: HostRuntime) -> ExitCode {
    let alloc = rt.alloc();
    // Words that can't be had are no command, as one empty word is none.
    let no_word = String::new(alloc);
    let words = all_words(&rt, alloc);
    let files = RealFiles::new(&rt);
    let disk: RealDisk<'_, _, LinkMakes> = RealDisk::new(&rt);
    let input = RealIn::new(rt.reader());
    let out = RealOut::new(io::writer(&rt));
    let notes = RealOut::new(rt.stderr());
    let given = given_words(&words, &no_word);
    ExitCode::from(exit_status(&rt, alloc, given, files, disk, &RealGate, input, out, notes))
}
