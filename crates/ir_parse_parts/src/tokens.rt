//! The tokens that are left.

ghost use Rattle.std.specs.Prelude.{◌≡◌, [], ◌∷◌, length, MatchOption};
ghost use Rattle.ir_lex.specs.TokenKinds.{number};
ghost use Rattle.ir_lex.specs.Tok.{tok, toks};
ghost use Rattle.ir_parse_parts.specs.Alphabet.{among};
ghost use Rattle.ir_parse_parts.specs.Readers.{next_is};
ghost use Rattle.ir_parse_parts.specs.Ahead.{ALIGNED, BRACKETS, STEPPING, WRAPS};
ghost use Rattle.ir_parse_parts.specs.Classes.{tokens, NextHead};
ghost use Rattle.ir_parse_parts.specs.Metadata.{META};
ghost use Rattle.ir_parse_parts.specs.Operands.{REG};

use ir_lex::{Token, TokenKind};
use std::marker::Model;

/// The tokens that are left, which a reader takes one by one. Contracts see their list.
#[derive(Drop)]
pub struct Tokens<'t, 'a> {
    rest: &'t [Token<'a>],
}

impl<'t, 'a> Model for Tokens<'t, 'a> {
    ghost use Rattle.std.specs.Prelude.{List};
    ghost use Rattle.ir_lex.specs.Tok.{Tok, toks};

    ghost Value = { List Tok };

    ghost view = { λ s. toks s.rest.now };
}

impl<'t, 'a> Tokens<'t, 'a> {
    /// All of these.
    pub fn new(tokens: &'t [Token<'a>]) -> Self
        ensures { result ≡ toks tokens.now }
    {
        Tokens { rest: tokens }
    }

    /// How many there are.
    pub fn left(&self) -> usize
        ensures { result ≡ length self.now }
    {
        self.rest.len()
    }

    /// Takes the next token.
    pub fn take(&mut self) -> Option<Token<'a>>
        ensures { MatchOption result ((self.old ≡ []) × (self.new ≡ [])) (λ t. self.old ≡ tok t ∷ self.new) }
    {
        match self.rest {
            [] => None,
            [t, rest @ ..] => {
                self.rest = rest;
                Some(*t)
            }
        }
    }

    /// Whether the next token is the type of a register.
    pub fn comes_reg(&self) -> bool
        ensures { result ≡ next_is (among tokens REG) self.now }
    {
        match self.rest {
            [] => false,
            [t, ..] => matches!(
                t.kind,
                TokenKind::MemoryInteger | TokenKind::RegisterInteger | TokenKind::Ptr
            ),
        }
    }

    /// Whether the next token is the bracket that an array or a structure begins with.
    pub fn comes_bracket(&self) -> bool
        ensures { result ≡ next_is (among tokens BRACKETS) self.now }
    {
        match self.rest {
            [] => false,
            [t, ..] => matches!(
                t.kind,
                TokenKind::OpenBracket | TokenKind::OpenBrace | TokenKind::OpenAngle
            ),
        }
    }

    /// Whether the next token is metadata.
    pub fn comes_meta(&self) -> bool
        ensures { result ≡ next_is (among tokens META) self.now }
    {
        match self.rest {
            [] => false,
            [t, ..] => matches!(t.kind, TokenKind::Meta | TokenKind::Bang),
        }
    }

    /// Whether the next token is `nuw` or `nsw`.
    pub fn comes_wrap(&self) -> bool
        ensures { result ≡ next_is (among tokens WRAPS) self.now }
    {
        match self.rest {
            [] => false,
            [t, ..] => matches!(t.kind, TokenKind::Nuw | TokenKind::Nsw),
        }
    }

    /// Whether the next token is `align` or metadata.
    pub fn comes_aligned(&self) -> bool
        ensures { result ≡ next_is (among tokens ALIGNED) self.now }
    {
        match self.rest {
            [] => false,
            [t, ..] => matches!(t.kind, TokenKind::Align | TokenKind::Meta | TokenKind::Bang),
        }
    }

    /// Whether the next token is a flag of `getelementptr`.
    pub fn comes_stepping(&self) -> bool
        ensures { result ≡ next_is (among tokens STEPPING) self.now }
    {
        match self.rest {
            [] => false,
            [t, ..] => matches!(
                t.kind,
                TokenKind::Inbounds | TokenKind::Nuw | TokenKind::Nusw
            ),
        }
    }

    /// Whether the next token is of this kind.
    pub fn comes(&self, wanted: TokenKind) -> bool
        ensures { result ≡ next_is (among tokens (number wanted ∷ [])) self.now }
    {
        match self.rest {
            [] => false,
            [t, ..] => t.kind.is(wanted),
        }
    }

    /// The kind of the next token.
    pub fn kind(&self) -> Option<TokenKind>
        ensures { MatchOption result (self.now ≡ []) (λ h. NextHead self.now h) }
    {
        match self.rest {
            [] => None,
            [t, ..] => Some(t.kind),
        }
    }
}
