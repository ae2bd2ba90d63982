//! The words of the command line.
ghost use Rattle.std.specs.Prelude.{◌≡◌, ◌∷◌, [], map, string_bytes, IfOk, codes};
ghost use Rattle.std.specs.List.{list_any};
ghost use Rattle.clap.specs.Words.{subcommand_rows_of};
ghost use Rattle.lto_words.specs.Reads.{Tells};
ghost use Rattle.lto_words.specs.Commands.{IsCommand, IsGiven, MeansEntered, Parses, is_stop, without_words};

use crate::fault::WordsError;
use crate::given::file_names;
use crate::list::rows_of;
use crate::name::FileName;
use crate::options::{IMPORT_LIMIT, INLINE_LIMIT, JOBS};
use crate::request::{Command, LinkOptions, kind_named, requested};
use crate::table::thinlto;
use clap::ArgMatches;
use clap::error::ErrorKind;
use std::alloc::{AllocError, Global};

/// Whether the word is `--` or begins `-o=`.
fn is_stop(word: &str) -> bool
    ensures { result ≡ is_stop word.now }
{
    word == "--" || word.as_bytes().starts_with(b"-o=")
}

fn has_stop(words: &[String]) -> bool
    ensures { result ≡ list_any is_stop (map string_bytes words.now) }
{
    words.iter().any(|word| is_stop(word.as_str()))
}

/// What the table's command finds in the words.
fn parsed<'a>(alloc: Global, words: &'a [String]) -> Result<ArgMatches<'a>, WordsError>
    ensures { Parses (map string_bytes words.entry.now) result }
{
    let Ok(thinlto) = thinlto(alloc) else {
        return Err(WordsError::NoMemory);
    };
    match thinlto.try_get_matches_from(words) {
        Ok(matches) => Ok(matches),
        Err(error) => match error.kind() {
            ErrorKind::OutOfMemory => Err(WordsError::NoMemory),
            _ => Err(WordsError::Usage),
        },
    }
}

/// `link -o - -`.
fn without_words(alloc: Global) -> Result<Command, AllocError>
    ensures { IfOk result (λ c. c ≡ without_words) }
{
    let exports = rows_of(alloc, &["main"])?;
    let out = FileName::copied(alloc, "-")?;
    let files = file_names(alloc, &["-"])?;
    Ok(Command::Link {
        options: LinkOptions {
            jobs: 1,
            cache: None,
            exports,
            import_limit: 100,
            inline_limit: 40,
        },
        out,
        files,
    })
}

/// The command that a parse found, which has to be one of the table's.
fn entered(alloc: Global, matches: &ArgMatches<'_>) -> Result<Command, WordsError>
    ensures { Tells (MeansEntered (subcommand_rows_of matches.now)) result }
{
    let Some((name, given)) = matches.subcommand() else {
        return Err(WordsError::Usage);
    };
    let Some(kind) = kind_named(name) else {
        return Err(WordsError::Usage);
    };
    requested(alloc, kind, given)
}

/// The command of words, of which there is one at least.
fn given(alloc: Global, words: &[String]) -> Result<Command, WordsError>
    ensures { Tells (IsGiven (map string_bytes words.now)) result }
{
    if has_stop(words) {
        return Err(WordsError::Usage);
    }
    let matches = parsed(alloc, words)?;
    entered(alloc, &matches)
}

/// The command that the words are: Usage exactly where they are none.
///
/// Options stand in any order, as `--jobs 2` or `--jobs=2` and `-o OUT` or `-oOUT`; a value that begins with `-` is
/// joined, as `--args=-5`, but for `-` alone.
pub fn command(alloc: Global, words: &[String]) -> Result<Command, WordsError>
    ensures { Tells (IsCommand (map string_bytes words.now)) result }
{
    if words.is_empty() {
        return Ok(without_words(alloc)?);
    }
    given(alloc, words)
}
