//! The items of a text that is in the grammar, or the first place at which no reading goes on.
ghost use Rattle.std.specs.Prelude.{◌≡◌, ◌-◌, [], IfOk, IfErr, OnOk, true, drop, length};
ghost use Rattle.ir_lex.specs.Tok.{tok, toks};
ghost use Rattle.ir_parse_parts.specs.Readers.{Returns};
ghost use Rattle.ir_parse.specs.Modules.{whole_module, module_of, last_tokens};
ghost use Rattle.ir_tree.specs.Failures.{IfFault};
ghost use Rattle.ir_parse.specs.Answers.{IsStopped};
ghost use Rattle.ir_parse.specs.FirstFault.{Stuck, end_kind};
ghost use Rattle.ir_parse.specs.Kinds.{refused_kind, grammar_fault};

use crate::fault::{ReadError, ReadFault};
use crate::items::items_into;
use ir_lex::{Lexed, Token, TokenKind};
use ir_parse_heads::name_refusal;
use ir_parse_parts::{Fault as Refusal, Item, ReaderError, TokenFault, Tokens};
use ir_tree::{FaultKind, Text};
use std::alloc::{AllocError, Global};

// How many parameters may stand behind the first of a function.
const FURTHER_PARAMETERS: usize = 65534;

// How many global names a module may define and declare.
const GLOBAL_NAMES: usize = 65535;

/// Reads these tokens as items, into an empty list.
#[tactic(auto, unfolding(crate::specs::Modules::module_of, crate::specs::Modules::FURTHER_PARAMETERS, crate::specs::Modules::GLOBAL_NAMES))]
fn items_of(alloc: Global, all: &[Token], items: &mut Vec<Item>) -> Result<(), ReaderError>
    requires { items.now.items ≡ [] }
    ensures { Returns (λ x. items.new.items) result (module_of (toks all.now)) }
{
    let mut rest = Tokens::new(all);
    items_into(alloc, FURTHER_PARAMETERS, GLOBAL_NAMES, items, &mut rest)?;
    let left = rest.left();
    match rest.take() {
        None => Ok(()),
        Some(t) => Err(ReaderError::Fault(Refusal {
            left,
            kind: name_refusal(t.kind),
        })),
    }
}

/// Why a token is refused that belongs to a part of the language that isn't covered.
fn refused_kind(alloc: Global, t: &Token) -> Result<FaultKind, AllocError>
    ensures { IfOk result (λ k. k ≡ refused_kind (tok t.now)) }
{
    if t.kind.is(TokenKind::Str) {
        Ok(FaultKind::Layout)
    } else {
        let word = Text::copied(alloc, t.text)?;
        Ok(FaultKind::Profile { word })
    }
}

/// Why the grammar refuses a token.
fn grammar_fault(alloc: Global, t: &Token, kind: TokenFault) -> Result<FaultKind, AllocError>
    ensures { IfOk result (λ k. k ≡ grammar_fault (tok t.now) kind) }
{
    match kind {
        TokenFault::Syntax => Ok(FaultKind::Syntax),
        TokenFault::Profile => refused_kind(alloc, t),
        TokenFault::Number => Ok(FaultKind::Number),
        TokenFault::Limit => Ok(FaultKind::Limit),
    }
}

/// The last of these tokens, so many.
fn last_of<'s, 'a>(all: &'s [Token<'a>], left: usize) -> &'s [Token<'a>]
    ensures { result.now ≡ drop (length all.now - left) all.now }
{
    all.split_at(all.len().saturating_sub(left)).1
}

/// The fault where the tokens end: bytes that are no token, or the end of the text.
fn fault_behind(lexed: &Lexed) -> ReadFault
    ensures line { result.line ≡ lexed.now.line }
    ensures kind { result.kind ≡ end_kind lexed.now.whole }
{
    ReadFault {
        line: lexed.line,
        kind: if lexed.whole {
            FaultKind::Syntax
        } else {
            FaultKind::Lex
        },
    }
}

/// The fault that the grammar finds.
fn fault_of(alloc: Global, lexed: &Lexed, refusal: Refusal) -> Result<ReadFault, AllocError>
    ensures { IfOk result (λ f. IsStopped (last_tokens lexed.now.tokens.items refusal.left) lexed.now.whole lexed.now.line refusal.kind f) }
{
    match last_of(&lexed.tokens, refusal.left) {
        [] => Ok(fault_behind(lexed)),
        [t, ..] => {
            let kind = grammar_fault(alloc, t, refusal.kind)?;
            Ok(ReadFault { line: t.line, kind })
        }
    }
}

/// Reads the tokens of a text as items, into an empty list; they end where the text does.
///
/// A fault stands at the first token with which no module goes on, at bytes that are no token where
/// none stands before, or at the end.
#[tactic(auto, using(crate::proofs::Stuck::stuck_so, crate::proofs::Stuck::behind_so, crate::proofs::Stuck::whole_so))]
pub(crate) fn items_in<'a>(
    alloc: Global,
    lexed: &Lexed<'a>,
    items: &mut Vec<Item>,
) -> Result<(), ReadError>
    requires { items.now.items ≡ [] }
    ensures found { OnOk result ((lexed.now.whole ≡ true) × whole_module (toks lexed.now.tokens.items) items.new.items) }
    ensures fault { IfErr result (λ e. IfFault e (λ f. Stuck (toks lexed.now.tokens.items) lexed.now.whole lexed.now.line f.line f.kind)) }
{
    match items_of(alloc, &lexed.tokens, items) {
        Ok(()) => {
            if lexed.whole {
                Ok(())
            } else {
                Err(ReadError::Fault(fault_behind(lexed)))
            }
        }
        Err(ReaderError::NoMemory) => Err(ReadError::NoMemory),
        Err(ReaderError::Fault(refusal)) => {
            let fault = fault_of(alloc, lexed, refusal)?;
            Err(ReadError::Fault(fault))
        }
    }
}
