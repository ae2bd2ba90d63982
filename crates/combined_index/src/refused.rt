//! Why a link has no set of live symbols.
use ir_tree::{Failure, Text};

/// A name that a link needs and no module defines.
#[derive(Drop)]
pub enum Refused {
    /// A live definition refers to the name; `module` is the first in command order, from 0, that has one.
    Undefined { name: Text, module: u32 },
    /// The name is to be exported.
    NoExport { name: Text },
}

/// Why there is no set of live symbols.
pub type LiveError = Failure<Refused>;
