//! Tokens and their forms.

use crate::token_kind::TokenKind;

/// How a token is written. LLVM's own lexer tells the same forms apart; each keyword is a `Word` here.
#[derive(Clone, Copy, Debug, PartialEq, Eq)]
pub enum TokenForm {
    /// A block's label, with its colon: `entry:`, `7:`, `"a b":`.
    Label,
    /// A decimal integer with or without a minus sign: `-12`.
    Number,
    /// A keyword, a type such as `i32`, or an attribute: `define`.
    Word,
    /// A local value, block or type: `%x`, `%3`, `%"a b"`.
    Local,
    /// A global value: `@main`, `@0`, `@"a b"`.
    Global,
    /// A comdat: `$f`.
    Comdat,
    /// Metadata, or the `!` before a node: `!dbg`, `!3`, `!`.
    Meta,
    /// An attribute group: `#0`.
    Group,
    /// A string: `"x86_64-unknown-linux-gnu"`.
    Str,
    /// The bytes of an array: `c"hello\00"`.
    CStr,
    /// The mark of variable arguments: `...`.
    Dots,
    /// Any other single byte: `(`, `=`, `,`.
    Other,
}

/// A token: its form, the slice of the text that it is, and where it stands in its line.
#[derive(Clone, Copy)]
pub struct Token<'a> {
    pub text: &'a [u8],
    /// The line of its first byte, counted from 1.
    pub line: u32,
    pub form: TokenForm,
    /// Its kind, by which a reader chooses (LLVM's `lltok`).
    pub kind: TokenKind,
    /// Whether its line, or the text, ends between it and the next token.
    pub ends_line: bool,
}
