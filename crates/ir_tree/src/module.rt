//! Modules (LangRef, "Module Structure").

use crate::function::{Function, Variable};
use crate::rows::Rows;
use crate::text::Text;

/// A variable or a function of a module, defined or declared.
pub enum GlobalValue {
    Variable(Variable),
    Function(Function),
}

// Written out, so that it is one call wherever a global value is dropped.
impl Drop for GlobalValue {
    fn drop(self) {
        match self {
            GlobalValue::Variable(variable) => drop(variable),
            GlobalValue::Function(function) => drop(function),
        }
    }
}

/// A module: its target lines, which are empty where it has none, and its global values in the order
/// of the text.
#[derive(Drop)]
pub struct Module {
    pub datalayout: Text,
    pub triple: Text,
    pub globals: Rows<GlobalValue>,
}
