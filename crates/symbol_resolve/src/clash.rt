//! Why modules can't be linked.
use ir_tree::{Failure, TargetLine, Text};

/// Two modules that can't be linked, by their numbers in command order, from 0.
#[derive(Drop)]
pub enum Clash {
    /// The first module that has the line, and the first in which it is another.
    TargetClash {
        line: TargetLine,
        first: u32,
        second: u32,
    },
    /// The first two modules that define the name externally.
    DuplicateSymbol {
        name: Text,
        first: u32,
        second: u32,
    },
    /// The first module in which the name is a function, and the first in which it is a variable.
    KindClash {
        name: Text,
        function: u32,
        variable: u32,
    },
}

/// Why symbols aren't resolved.
pub type ClashError = Failure<Clash>;
