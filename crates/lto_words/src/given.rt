//! What is given for the options and names of a command.
ghost use Rattle.std.specs.Prelude.{◌≡◌, ◌∷◌, [], map, option_map, IfOk, codes};
ghost use Rattle.clap.specs.Words.{all_of, first_of};
ghost use Rattle.clap.specs.Walk.{texts};
ghost use Rattle.lto_words.specs.Reads.{Tells};
ghost use Rattle.lto_words.specs.Given.{HasArgs, HasCache, HasExports, HasFile, HasFiles, HasNumber, HasRoot, are_files, rows_in};
ghost use Rattle.lto_words.specs.Values.{IsName};

use crate::fault::WordsError;
use crate::list::{Decimal, decimals, has_empty, names, rows_of};
use crate::name::FileName;
use crate::number::number;
use crate::options::NumberOption;
use clap::ArgMatches;
use ir_tree::{Rows, Text};
use std::alloc::{AllocError, Global};

/// The most files of a command.
const MOST_FILES: usize = 4_096;

/// The text of an option, where it is given.
fn given<'a>(matches: &ArgMatches<'a>, name: &str) -> Option<&'a str>
    ensures { option_map (λ s. s.now) result ≡ first_of name.now (rows_in matches.now) }
{
    matches.get_str(name)
}

/// The texts of the names, where they are given.
fn all_given<'m, 'a>(matches: &'m ArgMatches<'a>, name: &str) -> Option<&'m [&'a str]>
    ensures { option_map (λ s. texts s.now) result ≡ all_of name.now (rows_in matches.entry.now) }
{
    matches.get_raw(name)
}

pub(crate) fn number_given(
    matches: &ArgMatches<'_>,
    option: NumberOption,
) -> Result<u32, WordsError>
    ensures { Tells (HasNumber (record { name = option.name.now; least = option.least; most = option.most; default = option.default }) (rows_in matches.now)) result }
{
    let value = match given(matches, option.name) {
        Some(text) => number(text, option.least, option.most),
        None => option.default,
    };
    value.ok_or(WordsError::Usage)
}

fn file_name(alloc: Global, text: &str) -> Result<FileName, WordsError>
    ensures { Tells (IsName text.now) result }
{
    if text.is_empty() {
        return Err(WordsError::Usage);
    }
    Ok(FileName::copied(alloc, text)?)
}

fn symbol(alloc: Global, text: &str) -> Result<Text, WordsError>
    ensures { Tells (IsName text.now) result }
{
    if text.is_empty() {
        return Err(WordsError::Usage);
    }
    Ok(Text::copied(alloc, text.as_bytes())?)
}

pub(crate) fn cache_given(
    alloc: Global,
    matches: &ArgMatches<'_>,
) -> Result<Option<FileName>, WordsError>
    ensures { Tells (HasCache (rows_in matches.now)) result }
{
    match given(matches, "cache") {
        Some(text) => Ok(Some(file_name(alloc, text)?)),
        None => Ok(None),
    }
}

pub(crate) fn exports_given(
    alloc: Global,
    matches: &ArgMatches<'_>,
) -> Result<Rows<Text>, WordsError>
    ensures { Tells (HasExports (rows_in matches.now)) result }
{
    match given(matches, "export") {
        Some(list) => names(alloc, list),
        None => Ok(rows_of(alloc, &["main"])?),
    }
}

pub(crate) fn root_given(alloc: Global, matches: &ArgMatches<'_>) -> Result<Text, WordsError>
    ensures { Tells (HasRoot (rows_in matches.now)) result }
{
    match given(matches, "root") {
        Some(text) => symbol(alloc, text),
        None => Ok(Text::copied(alloc, b"main")?),
    }
}

pub(crate) fn args_given(
    alloc: Global,
    matches: &ArgMatches<'_>,
) -> Result<Rows<Decimal>, WordsError>
    ensures { Tells (HasArgs (rows_in matches.now)) result }
{
    match given(matches, "args") {
        Some(list) => decimals(alloc, list),
        None => Ok(Rows::new(alloc)),
    }
}

/// The name of a file that has to be given.
pub(crate) fn file_given(
    alloc: Global,
    matches: &ArgMatches<'_>,
    name: &str,
) -> Result<FileName, WordsError>
    ensures { Tells (HasFile name.now (rows_in matches.now)) result }
{
    match given(matches, name) {
        Some(text) => file_name(alloc, text),
        None => Err(WordsError::Usage),
    }
}

fn are_files(names: &[&str]) -> bool
    ensures { result ≡ are_files (texts names.now) }
{
    names.len() <= MOST_FILES && !has_empty(names)
}

/// The names of files that these texts are.
pub(crate) fn file_names(alloc: Global, names: &[&str]) -> Result<Rows<FileName>, AllocError>
    ensures { IfOk result (λ files. files ≡ texts names.now) }
{
    let mut files = Rows::new(alloc);
    for name in names {
        files.push(FileName::copied(alloc, name)?)?;
    }
    Ok(files)
}

pub(crate) fn files_given(
    alloc: Global,
    matches: &ArgMatches<'_>,
) -> Result<Rows<FileName>, WordsError>
    ensures { Tells (HasFiles (rows_in matches.now)) result }
{
    let Some(names) = all_given(matches, "FILE") else {
        return Err(WordsError::Usage);
    };
    if !are_files(names) {
        return Err(WordsError::Usage);
    }
    Ok(file_names(alloc, names)?)
}
