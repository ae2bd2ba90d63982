//! Names and strings as they are written (LangRef, "Identifiers").
ghost use Rattle.std.specs.Prelude.{◌≡◌, IfOk};
ghost use Rattle.ir_lex.specs.Tok.{tok};

use ir_lex::{Token, TokenForm, TokenKind};
use ir_tree::Text;
use std::alloc::{AllocError, Global};
use std::marker::Model;

/// A name, or a string, as it is written: its token, which contracts see without its place.
///
/// It keeps a copy of its bytes, so that a written tree borrows nothing.
#[derive(Drop)]
pub struct Name {
    text: Text,
    line: u32,
    form: TokenForm,
    kind: TokenKind,
    ends_line: bool,
}

impl Model for Name {
    ghost use Rattle.ir_lex.specs.Tok.{Tok};

    ghost Value = { Tok };

    ghost view = { λ n. record { form = n.form; text = n.text; line = n.line; kind = n.kind; ends_line = n.ends_line } };
}

impl Name {
    /// The name that this token writes.
    pub fn of(alloc: Global, token: &Token) -> Result<Name, AllocError>
        ensures { IfOk result (λ n. n ≡ tok token.now) }
    {
        let text = Text::copied(alloc, token.text)?;
        Ok(Name {
            text,
            line: token.line,
            form: token.form,
            kind: token.kind,
            ends_line: token.ends_line,
        })
    }

    /// The token that writes it.
    pub fn token(&self) -> Token<'_>
        ensures { self.now ≡ tok result }
    {
        Token {
            text: self.text.as_slice(),
            line: self.line,
            form: self.form,
            kind: self.kind,
            ends_line: self.ends_line,
        }
    }

    /// The line that it stands on, counted from 1.
    pub fn line(&self) -> u32
        ensures { result ≡ self.now.line }
    {
        self.line
    }
}
