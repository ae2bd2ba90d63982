//! Functions and variables (LangRef, "Functions", "Global Variables" and "Linkage Types").

ghost use Rattle.std.specs.Prelude.{◌≡◌};
ghost use Rattle.ir_tree.specs.Linkages.{defines, is_local, is_replaceable};

use crate::block::Block;
use crate::init::Init;
use crate::operand::{Reg, Symbol};
use crate::rows::Rows;
use crate::shape::Shape;

/// Who sees a definition, and which of several copies counts.
#[derive(Clone, Copy, Debug, PartialEq, Eq)]
pub enum Linkage {
    Private,
    Internal,
    External,
    Linkonce,
    LinkonceOdr,
    Weak,
    WeakOdr,
    AvailableExternally,
}

impl Linkage {
    /// Whether the name is seen in its module alone.
    pub fn is_local(self) -> bool
        ensures { result ≡ is_local self }
    {
        match self {
            Linkage::Private | Linkage::Internal => true,
            Linkage::External
            | Linkage::Linkonce
            | Linkage::LinkonceOdr
            | Linkage::Weak
            | Linkage::WeakOdr
            | Linkage::AvailableExternally => false,
        }
    }

    /// Whether a body is a definition: one that is available externally counts as a declaration.
    pub fn defines(self) -> bool
        ensures { result ≡ defines self }
    {
        match self {
            Linkage::AvailableExternally => false,
            Linkage::Private
            | Linkage::Internal
            | Linkage::External
            | Linkage::Linkonce
            | Linkage::LinkonceOdr
            | Linkage::Weak
            | Linkage::WeakOdr => true,
        }
    }

    /// Whether whoever runs the program may put another body in the definition's place.
    pub fn is_replaceable(self) -> bool
        ensures { result ≡ is_replaceable self }
    {
        match self {
            Linkage::Weak | Linkage::Linkonce => true,
            Linkage::Private
            | Linkage::Internal
            | Linkage::External
            | Linkage::LinkonceOdr
            | Linkage::WeakOdr
            | Linkage::AvailableExternally => false,
        }
    }
}

/// A parameter: the local that holds it, and its type.
#[derive(Clone, Copy, Debug, PartialEq, Eq)]
pub struct Param {
    pub local: u32,
    pub reg: Reg,
}

/// A function. One without blocks is a declaration.
///
/// Locals and blocks are numbered by one counter in the order of the text: parameters, then each
/// block followed by its results. `result` is `None` for `void`.
#[derive(Drop)]
pub struct Function {
    pub symbol: Symbol,
    pub linkage: Linkage,
    pub result: Option<Reg>,
    pub params: Rows<Param>,
    pub noinline: bool,
    pub optnone: bool,
    pub blocks: Rows<Block>,
}

/// A global variable of a shape, at a multiple of `align` bytes. One without `init` is a declaration.
#[derive(Drop)]
pub struct Variable {
    pub symbol: Symbol,
    pub linkage: Linkage,
    pub constant: bool,
    pub shape: Shape,
    pub init: Option<Init>,
    pub align: u64,
}
