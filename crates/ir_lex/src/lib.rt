//! Cuts the text of a module of LLVM IR into tokens.
//!
//! Nothing stands below this crate but the standard library. A token is the longest that fits a row of the table in
//! `specs/Rows`, and of equals the first row's; blanks and comments stand between. The code goes by the first byte and
//! never sees that table. Beside its form a token has a kind ([`TokenKind`], `specs/TokenKinds`), by which readers choose,
//! and says whether its line ends behind it. [`lex`] gives also what stands before a bad token, [`tokens`] all tokens or
//! the line of the bad one.
//!
//! **Promise.** [`tokens`] gives the one list of tokens that a text has, each with its slice of the text and the line
//! that it begins on, or the line of the first place where no token stands (`specs/Lexing`). Every text has one or the
//! other ([`every_text`], [`one_list`]).
//!
//! **Cost.** Linear in the text. A token takes 24 bytes; room for one token in three bytes is reserved first, and more
//! is taken where tokens are shorter. Want of memory is answered as such, and so is a text of `2^32 - 1` bytes or more,
//! since lines have 32 bits.
//!
//! **Not shown.** That the table is that of LLVM's lexer: `tests_text` tries it on small texts. That memory for the
//! tokens is found.
#![tactic(auto)]

mod blanks;
mod bytes;
mod laws;
mod lexer;
mod names;
mod quotes;
mod rows;
mod token;
mod token_kind;
mod words;

pub use laws::{every_text, one_list, slices, written};
pub use lexer::{LexError, Lexed, lex, tokens};
pub use token::{Token, TokenForm};
pub use token_kind::TokenKind;
