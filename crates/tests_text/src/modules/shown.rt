//! What a text is read as, in one string.

use ir_parse::{ReadError, ReadFault, parse};
use ir_print::print;
use ir_tree::{FaultKind, Module};
use std::alloc::{AllocError, Global};
use std::fmt::Write;
use std::process::Abort;
use std::string::String;

/// A text, and what is printed of the module, or the line and the kind of the first fault.
pub type Row = (&'static str, &'static str);

fn put_kind(kind: &FaultKind, out: &mut String) {
    let _written = match kind {
        FaultKind::Lex => write!(out, "bad token"),
        FaultKind::Syntax => write!(out, "syntax"),
        FaultKind::Profile { word } => {
            let word = str::from_utf8(word.as_slice()).unwrap_or("?");
            write!(out, "not in the profile: {}", word)
        }
        FaultKind::Number => write!(out, "number"),
        FaultKind::Limit => write!(out, "limit"),
        FaultKind::Twice => write!(out, "twice"),
        FaultKind::Unknown => write!(out, "unknown"),
        FaultKind::Layout => write!(out, "layout"),
        FaultKind::Index => write!(out, "index"),
    };
}

fn fault_shown(alloc: Global, fault: &ReadFault) -> String {
    let mut out = String::new(alloc);
    let _written = write!(out, "{}: ", fault.line);
    put_kind(&fault.kind, &mut out);
    out
}

/// The module's print, or the line and the kind of the first fault.
pub fn shown(alloc: Global, text: &str) -> Result<String, AllocError> {
    match parse(alloc, text.as_bytes()) {
        Ok(parsed) => {
            let printed = print(alloc, parsed.module())?;
            let mut out = String::new(alloc);
            let _written = write!(out, "{}", str::from_utf8(printed.as_slice()).unwrap_or("?"));
            Ok(out)
        }
        Err(ReadError::NoMemory) => Err(AllocError),
        Err(ReadError::Fault(fault)) => Ok(fault_shown(alloc, &fault)),
    }
}

/// Tries that each text of a table is shown so.
pub fn are_shown<R: Abort>(rt: &R, alloc: Global, rows: &[Row]) -> Result<(), AllocError> {
    for &(text, want) in rows {
        assert!(rt; shown(alloc, text)?.as_str() == want, "{text}");
    }
    Ok(())
}

/// Whether what is printed of a module is read, and printed as that text again.
fn is_read_again(alloc: Global, module: &Module) -> Result<bool, AllocError> {
    let printed = print(alloc, module)?;
    match parse(alloc, printed.as_slice()) {
        Ok(parsed) => {
            let again = print(alloc, parsed.module())?;
            Ok(again.as_slice() == printed.as_slice())
        }
        Err(ReadError::NoMemory) => Err(AllocError),
        Err(ReadError::Fault(_)) => Ok(false),
    }
}

/// Whether a text is read as a module, and what is printed of that as one with the same text.
fn stays(alloc: Global, text: &str) -> Result<bool, AllocError> {
    match parse(alloc, text.as_bytes()) {
        Ok(parsed) => is_read_again(alloc, parsed.module()),
        Err(ReadError::NoMemory) => Err(AllocError),
        Err(ReadError::Fault(_)) => Ok(false),
    }
}

/// Tries that each text of a table is read as a module, and what is printed of that as the very same one.
pub fn stay<R: Abort>(rt: &R, alloc: Global, rows: &[Row]) -> Result<(), AllocError> {
    for &(text, _) in rows {
        assert!(rt; stays(alloc, text)?, "{text}");
    }
    Ok(())
}
