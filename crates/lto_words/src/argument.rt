//! The arguments of the commands.
ghost use Rattle.std.specs.Prelude.{◌≡◌, not, is_some, false};
ghost use Rattle.clap.specs.Words.{rule_of};
ghost use Rattle.lto_words.specs.Table.{rule};
ghost use Rattle.lto_words.specs.Table as table;

use crate::options::{IMPORT_LIMIT, INLINE_LIMIT, JOBS, MODULES, NumberOption, SEED, STEPS};
use clap::{Arg, ArgAction};
use std::alloc::Global;

/// An argument of a command.
#[derive(Clone, Copy)]
pub(crate) enum Argument {
    /// `--NAME TEXT`, once at most.
    Text(&'static str),
    /// `--NAME NUMBER`, once at most.
    Number(NumberOption),
    /// `-o OUT`.
    Out,
    /// `FILE..`.
    Files,
    /// `LISTFILE`.
    ListFile,
}

pub(crate) const LINK: [Argument; 7] = [
    Argument::Number(JOBS),
    Argument::Text("cache"),
    Argument::Text("export"),
    Argument::Number(IMPORT_LIMIT),
    Argument::Number(INLINE_LIMIT),
    Argument::Out,
    Argument::Files,
];

pub(crate) const BATCH: [Argument; 6] = [
    Argument::Number(JOBS),
    Argument::Text("cache"),
    Argument::Text("export"),
    Argument::Number(IMPORT_LIMIT),
    Argument::Number(INLINE_LIMIT),
    Argument::ListFile,
];

pub(crate) const INDEX: [Argument; 3] = [
    Argument::Text("export"),
    Argument::Number(IMPORT_LIMIT),
    Argument::Files,
];

pub(crate) const RUN: [Argument; 4] = [
    Argument::Text("root"),
    Argument::Text("args"),
    Argument::Number(STEPS),
    Argument::Files,
];

pub(crate) const GEN: [Argument; 3] = [
    Argument::Number(SEED),
    Argument::Number(MODULES),
    Argument::Number(JOBS),
];

/// `--name VALUE`, once at most.
fn option<'a>(alloc: Global, name: &'a str, required: bool) -> Arg<'a>
    ensures rule { rule_of result ≡ table.option name.entry.now required }
    ensures local { result.global ≡ false }
{
    Arg::new(alloc, name).long(name).required(required)
}

impl Argument {
    /// The argument as `clap` takes it.
    pub(crate) fn to_arg<'a>(self, alloc: Global) -> Arg<'a>
        ensures rule { rule_of result ≡ rule self }
        ensures local { result.global ≡ false }
    {
        match self {
            Argument::Text(name) => option(alloc, name, false),
            Argument::Number(number) => option(alloc, number.name, number.default.is_none()),
            Argument::Out => Arg::new(alloc, "o").short('o').required(true),
            Argument::Files => Arg::new(alloc, "FILE")
                .action(ArgAction::Append)
                .required(true),
            Argument::ListFile => Arg::new(alloc, "LISTFILE").required(true),
        }
    }
}
