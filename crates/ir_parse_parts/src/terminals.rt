//! Reads single tokens.

ghost use Rattle.std.specs.Prelude.{◌≡◌};
ghost use Rattle.ir_lex.specs.TokenKinds.{number};
ghost use Rattle.ir_lex.specs.Tok.{Tok};
ghost use Rattle.ir_parse_parts.specs.Readers.{Returns};
ghost use Rattle.ir_parse_parts.specs.Classes.{refusal, the_at};

use crate::tokens::Tokens;
use crate::{Fault, ReaderError, TokenFault};
use ir_lex::TokenKind;

/// Why a token of this kind can't stand where it isn't wanted.
pub fn refusal(head: TokenKind) -> TokenFault
    ensures { result ≡ refusal (number head) }
{
    match head {
        TokenKind::ReservedGlobal
        | TokenKind::LifetimeMarker
        | TokenKind::RefusedMark
        | TokenKind::RefusedInteger
        | TokenKind::RefusedAttribute
        | TokenKind::RefusedWord => TokenFault::Profile,
        _ => TokenFault::Syntax,
    }
}

/// Takes a token of this kind.
#[tactic(auto, unfolding(crate::specs::Rules::is_class))]
pub fn expect(wanted: TokenKind, tokens: &mut Tokens) -> Result<(), ReaderError>
    ensures { Returns (λ x. (tt, tokens.new)) result (the_at wanted tokens.old) }
{
    let left = tokens.left();
    match tokens.take() {
        None => Err(ReaderError::Fault(Fault {
            left,
            kind: TokenFault::Syntax,
        })),
        Some(t) => {
            if t.kind.is(wanted) {
                Ok(())
            } else {
                Err(ReaderError::Fault(Fault {
                    left,
                    kind: refusal(t.kind),
                }))
            }
        }
    }
}
