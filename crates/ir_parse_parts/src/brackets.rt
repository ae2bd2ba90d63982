//! Groups in brackets, however deep they nest.

ghost use Rattle.std.specs.Prelude.{◌≡◌, [], ◌∷◌};
ghost use Rattle.ir_parse_parts.specs.Balanced.{closing_at};
ghost use Rattle.ir_parse_parts.specs.Readers.{Returns};
ghost use Rattle.ir_parse_parts.specs.Brackets.{brackets, group_at, opening, move_of, same};
ghost use Rattle.ir_parse_parts.specs.BracketViews.{move};

use crate::terminals::expect;
use crate::tokens::Tokens;
use crate::{Fault, ReaderError, TokenFault};
use ir_lex::TokenKind;
use std::alloc::Global;

/// A kind of bracket.
#[derive(Clone, Copy)]
pub enum Bracket {
    /// `(` and `)`
    Paren,
    /// `[` and `]`
    Square,
    /// `{` and `}`
    Curly,
}

/// What a token does to the brackets that are open.
#[derive(Clone, Copy)]
pub enum BracketMove {
    Opens(Bracket),
    Closes(Bracket),
    Stays,
}

impl Bracket {
    /// What opens it.
    fn opening(self) -> TokenKind
        ensures { result ≡ opening self }
    {
        match self {
            Bracket::Paren => TokenKind::OpenParen,
            Bracket::Square => TokenKind::OpenBracket,
            Bracket::Curly => TokenKind::OpenBrace,
        }
    }

    /// Whether both are of one kind.
    pub fn same(self, other: Bracket) -> bool
        ensures { result ≡ same self other }
    {
        match self {
            Bracket::Paren => matches!(other, Bracket::Paren),
            Bracket::Square => matches!(other, Bracket::Square),
            Bracket::Curly => matches!(other, Bracket::Curly),
        }
    }
}

/// What a token of this kind does to the brackets that are open.
pub fn move_of(head: TokenKind) -> BracketMove
    ensures { move result ≡ move_of head }
{
    match head {
        TokenKind::OpenParen => BracketMove::Opens(Bracket::Paren),
        TokenKind::OpenBracket => BracketMove::Opens(Bracket::Square),
        TokenKind::OpenBrace => BracketMove::Opens(Bracket::Curly),
        TokenKind::CloseParen => BracketMove::Closes(Bracket::Paren),
        TokenKind::CloseBracket => BracketMove::Closes(Bracket::Square),
        TokenKind::CloseBrace => BracketMove::Closes(Bracket::Curly),
        _ => BracketMove::Stays,
    }
}

/// Reads what stands behind a bracket that is open, up to what closes it. The brackets around the
/// innermost are kept, the outermost first.
fn closing_at(alloc: Global, bracket: Bracket, tokens: &mut Tokens) -> Result<(), ReaderError>
    ensures { Returns (λ x. (tt, tokens.new)) result (closing_at brackets (bracket ∷ []) tokens.old) }
{
    let mut inner = bracket;
    let mut outer = Vec::new(alloc);
    'each: loop {
        let left = tokens.left();
        let Some(t) = tokens.take() else {
            return Err(ReaderError::Fault(Fault {
                left,
                kind: TokenFault::Syntax,
            }));
        };
        match move_of(t.kind) {
            BracketMove::Opens(b) => {
                outer.push(inner)?;
                inner = b;
            }
            BracketMove::Closes(b) => {
                if !inner.same(b) {
                    return Err(ReaderError::Fault(Fault {
                        left,
                        kind: TokenFault::Syntax,
                    }));
                }
                let Some(b) = outer.pop() else {
                    return Ok(());
                };
                inner = b;
            }
            BracketMove::Stays => {}
        }
    }
}

/// Reads a group in brackets of this kind.
#[tactic(auto, unfolding(crate::specs::Brackets::group_at))]
pub fn group_at(alloc: Global, bracket: Bracket, tokens: &mut Tokens) -> Result<(), ReaderError>
    ensures { Returns (λ x. (tt, tokens.new)) result (group_at bracket tokens.old) }
{
    expect(bracket.opening(), tokens)?;
    closing_at(alloc, bracket, tokens)
}
