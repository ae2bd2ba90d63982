//! All that a back end reads of one module of a link.
use ir_flow::AnalysedValue;
use ir_tree::{Rows, Text};

/// The definitions of a module of a task, and behind them declarations of what they refer to and lack. With each goes its control
/// flow where that is known: a task's text doesn't tell it, and what is made of the task is the same with it and without.
#[derive(Drop)]
pub struct TaskModule<'a> {
    pub defined: Vec<&'a AnalysedValue>,
    pub declared: Rows<AnalysedValue>,
}

/// What a back end reads of a module, and nothing else of the link: the cache's key is its text.
#[derive(Drop)]
pub struct Task<'a> {
    /// The most instructions that an inlined function has.
    pub inline_limit: u32,
    /// The names that the link exports and that the module defines.
    pub exports: Vec<&'a [u8]>,
    /// The final names of the module's locals that other modules refer to.
    pub promoted: Vec<Text>,
    /// The module's own values under their final names.
    pub own: TaskModule<'a>,
    /// The values that it imports.
    pub imported: TaskModule<'a>,
}
