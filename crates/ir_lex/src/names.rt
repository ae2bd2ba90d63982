//! The names of globals, and which of them LLVM keeps for itself.

ghost use Rattle.std.specs.Prelude.{◌≡◌, ◌<◌, ◌≤◌, ◌^◌, length, false};
ghost use Rattle.std.specs.Str.{bytes_eq};
ghost use Rattle.ir_lex.specs.Blanks.{skip};
ghost use Rattle.ir_lex.specs.TokenKinds.{begins_with, name_kind, is_numbered, is_local_linkage, gives_local, defines_local, global_kind};
ghost use Rattle.ir_lex.specs.Quotes.{unescaped};
ghost use Rattle.ir_lex.specs.declared.token.TokenForm.TheVariants as forms;

use crate::blanks::skip;
use crate::bytes::{Set, run};
use crate::quotes::{inside, spelled_at, stripped};
use crate::rows::label_len;
use crate::token::TokenForm;
use crate::token_kind::TokenKind;

/// Whether the bytes begin with these.
fn begins_with(start: &[u8], bytes: &[u8]) -> bool
    ensures { result ≡ begins_with start.now bytes.now }
{
    let mut left = start;
    let mut rest = bytes;
    'each: while let [wanted, others @ ..] = left {
        match rest {
            [] => return false,
            [first, more @ ..] => {
                if *first != *wanted {
                    return false;
                }
                rest = more;
                left = others;
            }
        }
    }
    true
}

/// Whether what quoted bytes stand for begins with these.
fn begins_spelled(start: &[u8], quoted: &[u8]) -> bool
    ensures { result ≡ begins_with start.now (unescaped quoted.now) }
{
    let mut left = start;
    let mut rest = quoted;
    'each: while let [wanted, others @ ..] = left {
        match rest {
            [] => return false,
            [first, more @ ..] => {
                let escape = spelled_at(*first, more);
                if escape.byte != *wanted {
                    return false;
                }
                let (_spelled, after) = more.split_at(escape.behind);
                rest = after;
                left = others;
            }
        }
    }
    true
}

/// Whether quoted bytes stand for these.
fn is_spelled(name: &[u8], quoted: &[u8]) -> bool
    ensures { result ≡ bytes_eq (unescaped quoted.now) name.now }
{
    let mut left = name;
    let mut rest = quoted;
    'each: while let [wanted, others @ ..] = left {
        match rest {
            [] => return false,
            [first, more @ ..] => {
                let escape = spelled_at(*first, more);
                if escape.byte != *wanted {
                    return false;
                }
                let (_spelled, after) = more.split_at(escape.behind);
                rest = after;
                left = others;
            }
        }
    }
    match rest {
        [] => true,
        [..] => false,
    }
}

/// The kind of a name without quotes.
#[tactic(auto, unfolding(crate::specs::TokenKinds::name_kind))]
fn bare_kind(name: &[u8]) -> TokenKind
    ensures { result ≡ name_kind name.now }
{
    if name == b"llvm.lifetime.start.p0".as_slice() || name == b"llvm.lifetime.end.p0".as_slice() {
        TokenKind::LifetimeMarker
    } else if name == b"llvm".as_slice() || begins_with(b"llvm.".as_slice(), name) {
        TokenKind::ReservedGlobal
    } else {
        TokenKind::Global
    }
}

/// The kind of a name in quotes.
#[tactic(auto, unfolding(crate::specs::TokenKinds::name_kind))]
fn quoted_kind(quoted: &[u8]) -> TokenKind
    ensures { result ≡ name_kind (unescaped quoted.now) }
{
    if is_spelled(b"llvm.lifetime.start.p0".as_slice(), quoted)
        || is_spelled(b"llvm.lifetime.end.p0".as_slice(), quoted)
    {
        TokenKind::LifetimeMarker
    } else if is_spelled(b"llvm".as_slice(), quoted)
        || begins_spelled(b"llvm.".as_slice(), quoted)
    {
        TokenKind::ReservedGlobal
    } else {
        TokenKind::Global
    }
}

fn is_numbered(digits: &[u8]) -> bool
    ensures { result ≡ is_numbered digits.now }
{
    !digits.is_empty() && run(Set::Digits, digits) == digits.len()
}

/// Whether `private` or `internal` stands here, and no label.
#[tactic(auto, unfolding(crate::specs::TokenKinds::is_local_linkage))]
fn is_local_linkage(bytes: &[u8]) -> bool
    ensures { result ≡ is_local_linkage bytes.now }
{
    if label_len(bytes) != 0 {
        return false;
    }
    let (word, _behind) = bytes.split_at(run(Set::WordBytes, bytes));
    word == b"private".as_slice() || word == b"internal".as_slice()
}

/// What stands behind the blanks and comments at the front.
fn behind_blanks<'a>(bytes: &'a [u8]) -> &'a [u8]
    requires { length bytes.now < 2 ^ 32 }
    ensures exact { result.now ≡ (skip false 0 bytes.now).bytes }
    ensures within { length result.now ≤ length bytes.now }
{
    let spot = skip(0, bytes);
    let (_blank, rest) = bytes.split_at(spot.at);
    rest
}

/// Whether an equals sign and then `private` or `internal` follow.
fn defines_local(bytes: &[u8]) -> bool
    requires { length bytes.now < 2 ^ 32 }
    ensures { result ≡ defines_local bytes.now }
{
    match behind_blanks(bytes) {
        [b'=', rest @ ..] => is_local_linkage(behind_blanks(rest)),
        _ => false,
    }
}

/// The kind of a global, by what its text stands for.
#[tactic(auto, unfolding(crate::specs::TokenKinds::global_kind, crate::specs::Quotes::content))]
pub fn global_kind(text: &[u8], behind: &[u8]) -> TokenKind
    requires { length behind.now < 2 ^ 32 }
    ensures { result ≡ global_kind text.now behind.now }
{
    let bare = stripped(TokenForm::Global, text);
    if is_numbered(bare) {
        return if defines_local(behind) {
            TokenKind::NumberedDefinition
        } else {
            TokenKind::NumberedGlobal
        };
    }
    match inside(bare) {
        None => bare_kind(bare),
        Some(quoted) => quoted_kind(quoted),
    }
}
