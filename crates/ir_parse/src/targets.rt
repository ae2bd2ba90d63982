//! The target lines of a module (LangRef, "Data Layout" and "Target Triple").
ghost use Rattle.std.specs.Prelude.{◌≡◌, IfOk, None, filter_map, option_map, option_copied};
ghost use Rattle.ir_parse.specs.Targets.{layout_string, triple_string, last_or, text_of};
ghost use Rattle.ir_parse.specs.Targets as targets;

use ir_parse_parts::{Item, Name};
use ir_tree::Text;
use std::alloc::{AllocError, Global};

/// The string of an item that names the data layout.
fn layout_string<'t>(item: &'t Item) -> Option<&'t Name>
    ensures { option_copied result ≡ layout_string item.now }
{
    match item {
        Item::Datalayout(string) => Some(string),
        _ => None,
    }
}

/// The string of an item that names the triple.
fn triple_string<'t>(item: &'t Item) -> Option<&'t Name>
    ensures { option_copied result ≡ triple_string item.now }
{
    match item {
        Item::Triple(string) => Some(string),
        _ => None,
    }
}

/// The last string that names the data layout.
fn last_layout<'t>(items: &'t [Item]) -> Option<&'t Name>
    ensures { option_copied result ≡ last_or None (filter_map layout_string items.now) }
{
    let mut last = None;
    'each: for item in items {
        if let Some(string) = layout_string(item) {
            last = Some(string);
        }
    }
    last
}

/// The last string that names the triple.
fn last_triple<'t>(items: &'t [Item]) -> Option<&'t Name>
    ensures { option_copied result ≡ last_or None (filter_map triple_string items.now) }
{
    let mut last = None;
    'each: for item in items {
        if let Some(string) = triple_string(item) {
            last = Some(string);
        }
    }
    last
}

/// What a string says; no string is the empty text.
fn text_of(alloc: Global, string: Option<&Name>) -> Result<Text, AllocError>
    ensures { IfOk result (λ text. text ≡ text_of (option_copied string.entry)) }
{
    match string {
        None => Ok(Text::new(alloc)),
        Some(string) => {
            let content = string.token().content(alloc)?;
            Text::copied(alloc, content.as_slice())
        }
    }
}

/// The data layout that the last line says that names one, or the empty text.
pub fn datalayout_of(alloc: Global, items: &[Item]) -> Result<Text, AllocError>
    ensures { IfOk result (λ text. text ≡ targets.datalayout_of items.now) }
{
    text_of(alloc, last_layout(items))
}

/// The triple that the last line says that names one, or the empty text.
pub fn triple_of(alloc: Global, items: &[Item]) -> Result<Text, AllocError>
    ensures { IfOk result (λ text. text ≡ targets.triple_of items.now) }
{
    text_of(alloc, last_triple(items))
}
