//! Why a list of tokens could not be read.

use ir_tree::Failure;

/// What is wrong at a token.
#[derive(Clone, Copy, Debug, PartialEq, Eq)]
pub enum TokenFault {
    /// No reading goes on with the token, and none of the other kinds fits.
    Syntax,
    /// The token belongs to a part of the language that isn't read.
    Profile,
    /// A number that is out of its range.
    Number,
    /// One more than a limit allows.
    Limit,
}

/// What is wrong, and how many tokens are left where it stands, its own among them; none are left
/// at the end.
#[derive(Clone, Copy, Debug, PartialEq, Eq)]
pub struct Fault {
    pub left: usize,
    pub kind: TokenFault,
}

/// Why a reader gave up.
pub type ReaderError = Failure<Fault>;
