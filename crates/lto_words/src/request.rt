//! The commands, and how each is read from what is given for it.
ghost use Rattle.std.specs.Prelude.{◌≡◌};
ghost use Rattle.lto_words.specs.Reads.{Tells};
ghost use Rattle.lto_words.specs.Given.{rows_in};
ghost use Rattle.lto_words.specs.Commands.{HasLinkOptions, IsBatch, IsGen, IsIndex, IsLink, IsRun, Means, kind_named};

use crate::fault::WordsError;
use crate::given::{
    args_given, cache_given, exports_given, file_given, files_given, number_given, root_given,
};
use crate::list::Decimal;
use crate::name::FileName;
use crate::options::{IMPORT_LIMIT, INLINE_LIMIT, JOBS, MODULES, SEED, STEPS};
use clap::ArgMatches;
use ir_tree::{Rows, Text};
use std::alloc::Global;

/// The options of links.
#[derive(Drop)]
pub struct LinkOptions {
    /// How many workers compile: 1 to 64.
    pub jobs: u32,
    /// The directory of the cache, where there is one.
    pub cache: Option<FileName>,
    /// The symbols that stay visible, each once, in the order in which they were named.
    pub exports: Rows<Text>,
    /// The greatest instruction count of a function that is imported by the first call of a chain: 0 to 200,000.
    pub import_limit: u32,
    /// The greatest instruction count of a function that is inlined: 0 to 20,000.
    pub inline_limit: u32,
}

/// What the words ask for.
#[derive(Drop)]
pub enum Command {
    /// Link the files, and put the linked module in `out`.
    Link {
        options: LinkOptions,
        out: FileName,
        files: Rows<FileName>,
    },
    /// The links of a list file, at once over one cache.
    Batch {
        options: LinkOptions,
        list: FileName,
    },
    /// Print what a link would import.
    Index {
        exports: Rows<Text>,
        import_limit: u32,
        files: Rows<FileName>,
    },
    /// Run the merged modules, for 1 to 4,000,000,000 steps at most.
    Run {
        root: Text,
        args: Rows<Decimal>,
        steps: u32,
        files: Rows<FileName>,
    },
    /// Make 1 to 4,096 modules from a seed of 31 bits, link them with `jobs` workers, and run them.
    Gen {
        seed: u32,
        modules: u32,
        jobs: u32,
    },
}

/// The commands without what is given for them.
#[derive(Clone, Copy)]
pub(crate) enum CommandKind {
    Link,
    Batch,
    Index,
    Run,
    Gen,
}

/// The command of a name.
pub(crate) fn kind_named(name: &str) -> Option<CommandKind>
    ensures { result ≡ kind_named name.now }
{
    match name {
        "link" => Some(CommandKind::Link),
        "batch" => Some(CommandKind::Batch),
        "index" => Some(CommandKind::Index),
        "run" => Some(CommandKind::Run),
        "gen" => Some(CommandKind::Gen),
        _ => None,
    }
}

fn link_options(alloc: Global, matches: &ArgMatches<'_>) -> Result<LinkOptions, WordsError>
    ensures { Tells (HasLinkOptions (rows_in matches.now)) result }
{
    let jobs = number_given(matches, JOBS)?;
    let import_limit = number_given(matches, IMPORT_LIMIT)?;
    let inline_limit = number_given(matches, INLINE_LIMIT)?;
    let cache = cache_given(alloc, matches)?;
    let exports = exports_given(alloc, matches)?;
    Ok(LinkOptions {
        jobs,
        cache,
        exports,
        import_limit,
        inline_limit,
    })
}

fn link(alloc: Global, matches: &ArgMatches<'_>) -> Result<Command, WordsError>
    ensures { Tells (IsLink (rows_in matches.now)) result }
{
    let options = link_options(alloc, matches)?;
    let out = file_given(alloc, matches, "o")?;
    let files = files_given(alloc, matches)?;
    Ok(Command::Link {
        options,
        out,
        files,
    })
}

fn batch(alloc: Global, matches: &ArgMatches<'_>) -> Result<Command, WordsError>
    ensures { Tells (IsBatch (rows_in matches.now)) result }
{
    let options = link_options(alloc, matches)?;
    let list = file_given(alloc, matches, "LISTFILE")?;
    Ok(Command::Batch { options, list })
}

fn index(alloc: Global, matches: &ArgMatches<'_>) -> Result<Command, WordsError>
    ensures { Tells (IsIndex (rows_in matches.now)) result }
{
    let import_limit = number_given(matches, IMPORT_LIMIT)?;
    let exports = exports_given(alloc, matches)?;
    let files = files_given(alloc, matches)?;
    Ok(Command::Index {
        exports,
        import_limit,
        files,
    })
}

fn run(alloc: Global, matches: &ArgMatches<'_>) -> Result<Command, WordsError>
    ensures { Tells (IsRun (rows_in matches.now)) result }
{
    let steps = number_given(matches, STEPS)?;
    let root = root_given(alloc, matches)?;
    let args = args_given(alloc, matches)?;
    let files = files_given(alloc, matches)?;
    Ok(Command::Run {
        root,
        args,
        steps,
        files,
    })
}

fn generate(matches: &ArgMatches<'_>) -> Result<Command, WordsError>
    ensures { Tells (IsGen (rows_in matches.now)) result }
{
    let seed = number_given(matches, SEED)?;
    let modules = number_given(matches, MODULES)?;
    let jobs = number_given(matches, JOBS)?;
    Ok(Command::Gen {
        seed,
        modules,
        jobs,
    })
}

/// The command of a kind, from what is given for it.
pub(crate) fn requested(
    alloc: Global,
    kind: CommandKind,
    matches: &ArgMatches<'_>,
) -> Result<Command, WordsError>
    ensures { Tells (Means kind (rows_in matches.now)) result }
{
    match kind {
        CommandKind::Link => link(alloc, matches),
        CommandKind::Batch => batch(alloc, matches),
        CommandKind::Index => index(alloc, matches),
        CommandKind::Run => run(alloc, matches),
        CommandKind::Gen => generate(matches),
    }
}
