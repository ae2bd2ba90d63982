//! Cuts a whole text into tokens.

ghost use Rattle.std.specs.Prelude.{◌≡◌, ◌<◌, ◌≤◌, ◌^◌, ◌+◌, ◌∷◌, length, List, ℕ, IfOk, IfErr, IfSome, is_none};
ghost use Rattle.ir_lex.specs.Tok.{Tok, toks};
ghost use Rattle.ir_lex.specs.Rows.{begins, best_fit, label_len};
ghost use Rattle.ir_lex.specs.Lexing.{AreTokens, AreTokensBefore, IsLexed, IsTokens, IsFaultAt, IfFault, is_bad, opens};
ghost use Rattle.ir_lex.specs.declared.lexer.LexError.TheVariants.{NoMemory};

use crate::blanks::{gap_behind, skip};
use crate::quotes::is_zero_name;
use crate::rows::{Fit, best_fit, label_at, string_len};
use crate::token::Token;
use crate::token_kind::kind_of;
use std::alloc::{AllocError, AllocFailed, Global};

// About as many bytes as a token of such text takes with the blanks behind it.
const BYTES_A_TOKEN: usize = 3;

/// Why a text has no tokens.
#[derive(Drop)]
pub enum LexError {
    NoMemory,
    /// A byte that begins no token, a string that isn't closed, or a name that holds a zero byte,
    /// and the line of its first byte, counted from 1.
    Fault { line: u32 },
}

impl From<AllocError> for LexError {
    ghost from_gives = { λ _ e. e ≡ NoMemory };

    fn from(_e: AllocError) -> LexError {
        LexError::NoMemory
    }
}

impl<T: Drop> From<AllocFailed<T>> for LexError {
    ghost from_gives = { λ _ e. e ≡ NoMemory };

    fn from(_e: AllocFailed<T>) -> LexError {
        LexError::NoMemory
    }
}

/// The tokens of a text up to its end, or up to the first place where none stands.
#[derive(Drop)]
pub struct Lexed<'a> {
    pub tokens: Vec<Token<'a>>,
    /// Whether the tokens are the whole text.
    pub whole: bool,
    /// The line of the end, or of that place.
    pub line: u32,
}

/// Whether a string that isn't closed stands behind a sigil.
fn opens(first: u8, rest: &[u8], bytes: &[u8]) -> bool
    requires { bytes.now ≡ first ∷ rest.now }
    ensures { result ≡ opens bytes.now }
{
    let is_sigil = first == b'@' || first == b'%' || first == b'$' || first == b'c';
    is_sigil && begins_quote(rest) && string_len(rest) == 0
}

fn begins_quote(bytes: &[u8]) -> bool
    ensures { result ≡ begins 34 bytes.now }
{
    match bytes {
        [b'"', ..] => true,
        _ => false,
    }
}

/// The token at the front, where a label takes so many bytes, unless none stands there.
#[tactic(auto, unfolding(crate::specs::Lexing::is_bad))]
fn token_at(label: usize, first: u8, rest: &[u8], bytes: &[u8]) -> Option<Fit>
    requires label { label ≡ label_len bytes.now }
    requires whole { bytes.now ≡ first ∷ rest.now }
    ensures found { IfSome result (λ f. f ≡ best_fit bytes.now) }
    ensures within { IfSome result (λ f. (0 < f.len) × (f.len ≤ length bytes.now)) }
    ensures bad { is_bad bytes.now ≡ is_none result }
{
    let fit = best_fit(label, first, rest, bytes);
    if fit.len == 0 || opens(first, rest, bytes) {
        return None;
    }
    let (text, _after) = bytes.split_at(fit.len);
    if is_zero_name(fit.form, text) {
        None
    } else {
        Some(fit)
    }
}

/// The tokens of a text up to its end, or up to the first place where none stands, and the line
/// there.
///
/// Beside want of memory, a text of `2^32 - 1` bytes or more is refused as too large for it: the
/// lines of tokens have 32 bits.
pub fn lex<'a>(alloc: Global, bytes: &'a [u8]) -> Result<Lexed<'a>, AllocError>
    ensures { IfOk result (λ x. IsLexed bytes.now (toks x.tokens.items) x.whole x.line) }
{
    if bytes.len() >= u32::MAX as usize {
        return Err(AllocError);
    }
    let mut tokens = Vec::with_capacity(alloc, bytes.len() / BYTES_A_TOKEN)?;
    let spot = skip(1, bytes);
    let (_blank, mut rest) = bytes.split_at(spot.at);
    let mut line = spot.line;
    // At this many places no label begins.
    let mut free = 0;
    'each: while let [first, others @ ..] = rest {
        let label = label_at(free, rest);
        let Some(fit) = token_at(label.len, *first, others, rest) else {
            return Ok(Lexed {
                tokens,
                whole: false,
                line,
            });
        };
        let (text, behind) = rest.split_at(fit.len);
        let gap = gap_behind(line, text, behind);
        let (_blank, next) = behind.split_at(gap.at);
        let kind = kind_of(fit.form, text, behind);
        tokens.push(Token {
            text,
            line,
            form: fit.form,
            kind,
            ends_line: gap.ends_line,
        })?;
        rest = next;
        line = gap.line;
        free = label.free.saturating_sub(fit.len).saturating_sub(gap.at);
    }
    Ok(Lexed {
        tokens,
        whole: true,
        line,
    })
}

/// The tokens of a text, each the longest at its place.
///
/// Beside want of memory, a text of `2^32 - 1` bytes or more is refused as too large for it.
pub fn tokens<'a>(alloc: Global, bytes: &'a [u8]) -> Result<Vec<Token<'a>>, LexError>
    // What is read is the text's list of tokens.
    ensures found { IfOk result (λ v. AreTokens bytes.now (toks v.items)) }
    // A fault is at the line of the first bad token.
    ensures fault { IfErr result (λ e. IfFault e (λ line. (ts : List Tok) × AreTokensBefore bytes.now ts line)) }
    // A text that has a list of tokens is read, and one that has a bad token is refused at its
    // line, unless memory runs out.
    ensures only { (ts : List Tok) → AreTokens bytes.now ts → IsTokens ts result }
    ensures bad { (ts : List Tok) (line : ℕ) → AreTokensBefore bytes.now ts line → IsFaultAt line result }
{
    let lexed = lex(alloc, bytes)?;
    if lexed.whole {
        Ok(lexed.tokens)
    } else {
        Err(LexError::Fault { line: lexed.line })
    }
}
