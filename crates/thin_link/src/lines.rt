//! The lines of a report, each with its line end.
ghost use Rattle.std.specs.Prelude.{◌≡◌, ◌<◌, ◌++◌, ◌∷◌, [], map, length, IfOk, decimal};
ghost use Rattle.thin_link.specs.Lines.{count_part, count_text, define_part, definition_line, file_part, from_part, import_line, import_part, module_line, number_part, state_part, state_text, symbol_text, text_of};
ghost use Rattle.thin_link.specs.Rows.{AreBelow, all_shown, shown};

use crate::entry::Entry;
use combined_index::{Definition, Live};
use ir_tree::quote_into;
use itoa::Buffer;
use std::alloc::AllocError;

fn push_words(out: &mut Vec<u8>, words: &[u8]) -> Result<(), AllocError>
    ensures { IfOk result (λ _. out.new.items ≡ out.old.items ++ words.now) }
{
    out.extend_from_slice(words)
}

fn push_decimal(out: &mut Vec<u8>, number: u64) -> Result<(), AllocError>
    ensures { IfOk result (λ _. out.new.items ≡ out.old.items ++ decimal number) }
{
    let mut buffer = Buffer::new();
    push_words(out, buffer.format(number).as_bytes())
}

/// Some words and a number.
fn push_number(out: &mut Vec<u8>, words: &[u8], number: u64) -> Result<(), AllocError>
    ensures { IfOk result (λ _. out.new.items ≡ out.old.items ++ (words.now ++ decimal number)) }
{
    push_words(out, words)?;
    push_decimal(out, number)
}

/// Both parts one after another, such as a blank and a word.
fn push_two(out: &mut Vec<u8>, first: &[u8], second: &[u8]) -> Result<(), AllocError>
    ensures { IfOk result (λ _. out.new.items ≡ out.old.items ++ (first.now ++ second.now)) }
{
    push_words(out, first)?;
    push_words(out, second)
}

#[tactic(auto, unfolding(crate::specs::Lines::symbol_text))]
fn push_symbol(out: &mut Vec<u8>, name: &[u8]) -> Result<(), AllocError>
    ensures { IfOk result (λ _. out.new.items ≡ out.old.items ++ symbol_text name.now) }
{
    push_words(out, b"@")?;
    quote_into(name, out)
}

#[tactic(auto, unfolding(crate::specs::Lines::define_part))]
fn push_define(out: &mut Vec<u8>, name: &[u8]) -> Result<(), AllocError>
    ensures { IfOk result (λ _. out.new.items ≡ out.old.items ++ define_part name.now) }
{
    push_words(out, b"  define ")?;
    push_symbol(out, name)
}

#[tactic(auto, unfolding(crate::specs::Lines::import_part))]
fn push_import(out: &mut Vec<u8>, name: &[u8]) -> Result<(), AllocError>
    ensures { IfOk result (λ _. out.new.items ≡ out.old.items ++ import_part name.now) }
{
    push_words(out, b"  import ")?;
    push_symbol(out, name)
}

#[tactic(auto, unfolding(crate::specs::Lines::from_part))]
fn push_from(out: &mut Vec<u8>, home: usize) -> Result<(), AllocError>
    ensures { IfOk result (λ _. out.new.items ≡ out.old.items ++ from_part home) }
{
    push_number(out, b" from ", home as u64)
}

/// A blank, and a function's count or `-` for a variable.
#[tactic(auto, unfolding(crate::specs::Lines::count_part))]
fn push_count(out: &mut Vec<u8>, count: Option<u32>) -> Result<(), AllocError>
    ensures { IfOk result (λ _. out.new.items ≡ out.old.items ++ count_part count) }
{
    match count {
        Some(count) => push_number(out, b" ", u64::from(count)),
        None => push_two(out, b" ", b"-"),
    }
}

/// What the link does with a definition. Its symbol has a mark.
fn state_name(live: &Live, definition: &Definition) -> &'static [u8]
    requires { definition.now.symbol < length live.now }
    ensures { result.now ≡ state_text live.now definition.now }
{
    if !definition.prevails {
        return b"replaced";
    }
    if live.has(definition.symbol) {
        b"live"
    } else {
        b"dead"
    }
}

#[tactic(auto, unfolding(crate::specs::Lines::state_part))]
fn push_state(out: &mut Vec<u8>, live: &Live, definition: &Definition) -> Result<(), AllocError>
    requires { definition.now.symbol < length live.now }
    ensures { IfOk result (λ _. out.new.items ≡ out.old.items ++ state_part live.now definition.now) }
{
    push_two(out, b" ", state_name(live, definition))
}

#[tactic(auto, unfolding(crate::specs::Lines::module_line, crate::specs::Lines::number_part, crate::specs::Lines::file_part))]
fn push_heading(out: &mut Vec<u8>, number: usize, file: &[u8]) -> Result<(), AllocError>
    ensures { IfOk result (λ _. out.new.items ≡ out.old.items ++ module_line number file.now) }
{
    push_number(out, b"module ", number as u64)?;
    push_two(out, b" ", file)
}

#[tactic(auto, unfolding(crate::specs::Lines::definition_line))]
fn push_entry(out: &mut Vec<u8>, live: &Live, entry: &Entry) -> Result<(), AllocError>
    requires { entry.now.definition.now.symbol < length live.now }
    ensures { IfOk result (λ _. out.new.items ≡ out.old.items ++ definition_line live.now (shown entry.now)) }
{
    push_define(out, entry.name)?;
    push_count(out, entry.definition.count)?;
    push_state(out, live, entry.definition)
}

#[tactic(auto, unfolding(crate::specs::Lines::import_line))]
fn push_brought(out: &mut Vec<u8>, entry: &Entry) -> Result<(), AllocError>
    ensures { IfOk result (λ _. out.new.items ≡ out.old.items ++ import_line (shown entry.now)) }
{
    push_import(out, entry.name)?;
    push_from(out, entry.home)?;
    push_count(out, entry.definition.count)
}

/// The line of a module.
pub(crate) fn push_module(out: &mut Vec<u8>, number: usize, file: &[u8]) -> Result<(), AllocError>
    ensures { IfOk result (λ _. out.new.items ≡ out.old.items ++ (module_line number file.now ++ 10 ∷ [])) }
{
    push_heading(out, number, file)?;
    push_words(out, b"\n")
}

/// The line of a definition.
fn push_definition(out: &mut Vec<u8>, live: &Live, entry: &Entry) -> Result<(), AllocError>
    requires { entry.now.definition.now.symbol < length live.now }
    ensures { IfOk result (λ _. out.new.items ≡ out.old.items ++ (definition_line live.now (shown entry.now) ++ 10 ∷ [])) }
{
    push_entry(out, live, entry)?;
    push_words(out, b"\n")
}

/// The line of an import.
fn push_imported(out: &mut Vec<u8>, entry: &Entry) -> Result<(), AllocError>
    ensures { IfOk result (λ _. out.new.items ≡ out.old.items ++ (import_line (shown entry.now) ++ 10 ∷ [])) }
{
    push_brought(out, entry)?;
    push_words(out, b"\n")
}

/// The lines of definitions.
pub(crate) fn push_definitions(
    out: &mut Vec<u8>,
    live: &Live,
    entries: &[Entry],
) -> Result<(), AllocError>
    requires { AreBelow (length live.now) entries.now }
    ensures { IfOk result (λ _. out.new.items ≡ out.old.items ++ text_of (map (definition_line live.now) (all_shown entries.now))) }
{
    for entry in entries {
        push_definition(out, live, entry)?;
    }
    Ok(())
}

/// The lines of imports.
pub(crate) fn push_imports(out: &mut Vec<u8>, entries: &[Entry]) -> Result<(), AllocError>
    ensures { IfOk result (λ _. out.new.items ≡ out.old.items ++ text_of (map import_line (all_shown entries.now))) }
{
    for entry in entries {
        push_imported(out, entry)?;
    }
    Ok(())
}
