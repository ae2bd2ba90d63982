//! Modules that are read from texts, and their functions.
use ir_parse::parse;
use ir_tree::{Function, GlobalValue, Module, Parsed};
use std::alloc::Global;

/// The module that a text is read as; none where it is read as no module, or memory runs out.
pub(crate) fn read(alloc: Global, text: &[u8]) -> Option<Parsed> {
    match parse(alloc, text) {
        Ok(parsed) => Some(parsed),
        Err(_) => None,
    }
}

/// The first function of this name, defined or declared.
pub(crate) fn function<'m>(module: &'m Module, name: &[u8]) -> Option<&'m Function> {
    for global in module.globals.as_slice() {
        if let GlobalValue::Function(f) = global {
            if f.symbol.name.equals(name) {
                return Some(f);
            }
        }
    }
    None
}
