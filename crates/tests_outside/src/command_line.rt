//! The words of the command line: words that are a command, and words that are none. Their commands try whether the
//! table of commands and options is the program's.
use lto_words::{Command, LinkOptions, WordsError, command};
use std::alloc::Global;
use std::process::Abort;

/// The name of a command, and its numbers.
type Told = (&'static str, [usize; 5]);

/// What can be told of.
trait Telling {
    /// The name of a command, and its numbers: of workers, of limits, and how many names and files it has.
    fn told(&self) -> Told;
}

/// The numbers of a link's options, and how many files it has.
fn link_numbers(options: &LinkOptions, files: usize) -> [usize; 5] {
    [
        options.jobs as usize,
        options.import_limit as usize,
        options.inline_limit as usize,
        options.exports.len(),
        files,
    ]
}

impl Telling for Command {
    fn told(&self) -> Told {
        match self {
            Command::Link { options, files, .. } => ("link", link_numbers(options, files.len())),
            Command::Batch { options, .. } => ("batch", [options.jobs as usize, 0, 0, 0, 0]),
            Command::Index {
                exports,
                import_limit,
                files,
            } => (
                "index",
                [0, *import_limit as usize, 0, exports.len(), files.len()],
            ),
            Command::Run {
                args,
                steps,
                files,
                ..
            } => ("run", [*steps as usize, 0, 0, args.len(), files.len()]),
            Command::Gen {
                seed,
                modules,
                jobs,
            } => (
                "gen",
                [*jobs as usize, *seed as usize, *modules as usize, 0, 0],
            ),
        }
    }
}

/// No command.
const USAGE: Told = ("usage", [0; 5]);

/// What is told of what was read, or of why nothing was.
fn outcome<T: Telling + Drop>(read: Result<T, WordsError>) -> Told {
    match read {
        Ok(found) => found.told(),
        Err(WordsError::Usage) => USAGE,
        Err(WordsError::NoMemory) => ("memory", [0; 5]),
    }
}

/// Words of one's own.
fn owned<R: Abort>(rt: &R, alloc: Global, words: &[&str]) -> Vec<String> {
    let mut owned = Vec::new(alloc);
    for word in words {
        let word = String::from_str(alloc, word).expect(rt, "a word");
        owned.push(word).expect(rt, "words");
    }
    owned
}

/// What words are read as.
fn read<R: Abort>(rt: &R, alloc: Global, words: &[&str]) -> Told {
    outcome(command(alloc, &owned(rt, alloc, words)))
}

/// Words, and the command that they are.
const COMMANDS: [(&[&str], Told); 6] = [
    // no words are a link of the standard input
    (&[], ("link", [1, 100, 40, 1, 1])),
    (
        &[
            "link",
            "a.ll",
            "--jobs=2",
            "-oOUT",
            "b.ll",
            "--export",
            "main,f,main",
        ],
        ("link", [2, 100, 40, 2, 2]),
    ),
    (
        &["run", "--args=-5", "--steps", "4000000000", "-"],
        ("run", [4_000_000_000, 0, 0, 1, 1]),
    ),
    (
        &["batch", "--cache", "d", "list"],
        ("batch", [1, 0, 0, 0, 0]),
    ),
    (
        &["index", "a.ll", "--import-limit=7"],
        ("index", [0, 7, 0, 1, 1]),
    ),
    (
        &["gen", "--modules", "2", "--seed", "0001"],
        ("gen", [1, 1, 2, 0, 0]),
    ),
];

#[test]
fn words_are_commands(rt: HostRuntime) {
    for &(words, wanted) in &COMMANDS {
        let found = read(&rt, rt.alloc(), words);
        assert!(rt; found.0 == wanted.0 && found.1 == wanted.1, "{words:?}");
    }
}

/// Words that are no command, and why.
const REFUSED: [(&str, &[&str]); 16] = [
    ("help is no option", &["--help"]),
    ("help is no command", &["help"]),
    ("no command has help", &["link", "--help"]),
    ("another command", &["join"]),
    ("an empty word", &[""]),
    (
        "an option that stands twice",
        &["link", "-o", "x", "-o", "y", "a.ll"],
    ),
    ("a short option with =", &["link", "-o=x", "a.ll"]),
    ("two hyphens alone", &["link", "-o", "x", "--", "a.ll"]),
    (
        "a value with a hyphen that isn't joined",
        &["run", "--args", "-5", "a.ll"],
    ),
    ("a file without a name", &["link", "-o", "x", ""]),
    (
        "an empty name in a list",
        &["link", "-o", "x", "--export=f,,g", "a.ll"],
    ),
    ("65 workers", &["link", "--jobs", "65", "-o", "o", "a.ll"]),
    ("no worker", &["link", "--jobs=0", "-o", "o", "a.ll"]),
    (
        "a number with a sign",
        &["link", "--jobs=+1", "-o", "o", "a.ll"],
    ),
    (
        "a number of eleven digits",
        &["link", "--jobs=00000000001", "-o", "o", "a.ll"],
    ),
    ("no seed", &["gen", "--modules", "2"]),
];

#[test]
fn other_words_are_usage(rt: HostRuntime) {
    for &(why, words) in &REFUSED {
        assert!(rt; read(&rt, rt.alloc(), words).0 == "usage", "{why}");
    }
}

#[test]
fn more_than_4096_files_are_usage(rt: HostRuntime) {
    let alloc = rt.alloc();
    let mut words = Vec::new(alloc);
    for word in ["link", "-oo"] {
        words.push(word).expect(&rt, "words");
    }
    for _ in 0..4_096 {
        words.push("a.ll").expect(&rt, "words");
    }
    assert!(rt; read(&rt, alloc, &words).0 == "link");
    words.push("a.ll").expect(&rt, "words");
    assert!(rt; read(&rt, alloc, &words).0 == "usage");
}
