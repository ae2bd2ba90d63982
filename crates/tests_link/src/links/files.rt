//! Files of module texts: the modules that they are read as, their index, and what a link of them answers.
use combined_index::{Index, combine};
use ir_flow::AnalysedModule;
use ir_parse::parse;
use ir_summary::{Summary, summarise};
use ir_tree::{Text, Verified};
use ir_verify::verify;
use lto_fault::{Refusal, status, text};
use std::alloc::{AllocError, Global};
use symbol_resolve::resolve;
use thin_link::index;

pub(crate) fn texts(alloc: Global, names: &[&[u8]]) -> Result<Vec<Text>, AllocError> {
    let mut all = Vec::new(alloc);
    for name in names {
        all.push(Text::copied(alloc, name)?)?;
    }
    Ok(all)
}

/// The sound module that a text is read as, with its control flow; none where it is read as no such module.
pub(crate) fn analysed(alloc: Global, source: &str) -> Option<AnalysedModule> {
    match parse(alloc, source.as_bytes()) {
        Ok(parsed) => verify(alloc, parsed).ok(),
        Err(_) => None,
    }
}

/// The sound module that a text is read as; none where it is read as no such module.
pub(crate) fn read(alloc: Global, source: &str) -> Option<Verified> {
    let (module, _flows) = analysed(alloc, source)?.into_parts();
    Some(module)
}

/// Adds what there is to a list; none where there is nothing, or memory runs out.
fn add<T: Drop>(list: &mut Vec<T>, made: Option<T>) -> Option<()> {
    list.push(made?).ok()
}

/// The names of these files.
fn names_of(alloc: Global, files: &[(&str, &str)]) -> Option<Vec<Text>> {
    let mut names = Vec::new(alloc);
    for &(name, _) in files {
        add(&mut names, Text::copied(alloc, name.as_bytes()).ok())?;
    }
    Some(names)
}

/// The modules of these files; none where a text is read as no sound module.
pub(crate) fn modules_of(alloc: Global, files: &[(&str, &str)]) -> Option<Vec<Verified>> {
    let mut modules = Vec::new(alloc);
    for &(_, source) in files {
        add(&mut modules, read(alloc, source))?;
    }
    Some(modules)
}

/// What is summarised of each of these modules.
fn summarised(alloc: Global, modules: &[Verified]) -> Option<Vec<Vec<Summary>>> {
    let mut summaries = Vec::new(alloc);
    for module in modules {
        add(&mut summaries, summarise(alloc, module).ok())?;
    }
    Some(summaries)
}

/// The index of these files, each a name and a text. None where a text is read as no sound module, or two of them can't be
/// linked.
pub(crate) fn linked(alloc: Global, files: &[(&str, &str)]) -> Option<Index> {
    let modules = modules_of(alloc, files)?;
    let summaries = summarised(alloc, &modules)?;
    match resolve(alloc, &modules) {
        Ok(resolution) => combine(alloc, summaries, &resolution).ok(),
        Err(_) => None,
    }
}

/// The status and the text of a refusal.
fn told(alloc: Global, refusal: &Refusal) -> Option<(u8, Text)> {
    let text = text(alloc, refusal).ok()?;
    Some((status(refusal), text))
}

/// What the index of these modules, in files of these names, answers; none where these aren't as many.
fn answer(
    alloc: Global,
    names: &[Text],
    modules: &[Verified],
    exports: &[Text],
    import_limit: u32,
) -> Option<(u8, Text)> {
    if names.len() != modules.len() {
        return None;
    }
    match index(alloc, names, modules, exports, import_limit) {
        Ok(report) => Some((0, report)),
        Err(refusal) => told(alloc, &refusal),
    }
}

/// What the index of these files answers, each a name and a text, where `main` is exported: 0 and the report,
/// or the status and the text of the refusal. None where a text is read as no sound module.
pub(crate) fn answered(
    alloc: Global,
    files: &[(&str, &str)],
    import_limit: u32,
) -> Option<(u8, Text)> {
    let names = names_of(alloc, files)?;
    let modules = modules_of(alloc, files)?;
    let exports = texts(alloc, &[b"main"]).ok()?;
    answer(alloc, &names, &modules, &exports, import_limit)
}
