//! The rows of the table of tokens: the longest that fits at a place.

ghost use Rattle.std.specs.Prelude.{◌≡◌, ◌+◌, ◌≤◌, ◌∷◌, ◌<◌, ◌^◌, nat_lt, if◌then◌else◌, length};
ghost use Rattle.ir_lex.specs.Rows.{string_len, bare_len, name_len, before_colon, label_len, fit, better, rest_fit, best_fit, dots_len, behind, LabelFree, Plain};
ghost use Rattle.ir_lex.specs.Rows as spec;
ghost use Rattle.ir_lex.specs.declared.token.TokenForm.TheVariants as forms;

use crate::bytes::{Set, run, starts_name, starts_word};
use crate::token::TokenForm;

/// A row of the table of tokens, and how many bytes it takes.
#[derive(Clone, Copy)]
pub struct Fit {
    pub form: TokenForm,
    pub len: usize,
}

/// How many bytes a string takes, with its quotes; 0 where none stands or it isn't closed.
#[tactic(auto, unfolding(crate::specs::Rows::string_len))]
pub fn string_len(bytes: &[u8]) -> usize
    ensures exact { result ≡ string_len bytes.now }
    ensures within { result ≤ length bytes.now }
{
    match bytes {
        [] => 0,
        [first, rest @ ..] => {
            if *first != b'"' {
                return 0;
            }
            let n = run(Set::Inside, rest);
            if n < rest.len() && rest[n] == b'"' {
                n + 2
            } else {
                0
            }
        }
    }
}

/// How many bytes a bare name takes.
fn bare_len(bytes: &[u8]) -> usize
    ensures exact { result ≡ bare_len bytes.now }
    ensures within { result ≤ length bytes.now }
{
    match bytes {
        [] => 0,
        [first, rest @ ..] => {
            if starts_name(*first) {
                run(Set::LabelBytes, rest) + 1
            } else {
                0
            }
        }
    }
}

/// What may follow the sigil of a name: a bare name, digits or a string.
#[tactic(auto, unfolding(crate::specs::Rows::name_len))]
fn name_len(bytes: &[u8]) -> usize
    ensures exact { result ≡ name_len bytes.now }
    ensures within { result ≤ length bytes.now }
{
    let bare = bare_len(bytes);
    let digits = run(Set::Digits, bytes);
    bare.max(digits.max(string_len(bytes)))
}

/// So many bytes and a colon, where one follows them.
fn before_colon(n: usize, bytes: &[u8]) -> usize
    requires { n ≤ length bytes.now }
    ensures exact { result ≡ before_colon n bytes.now }
    ensures within { result ≤ length bytes.now }
{
    if 0 < n && n < bytes.len() && bytes[n] == b':' {
        n + 1
    } else {
        0
    }
}

/// A label and its colon.
#[tactic(auto, unfolding(crate::specs::Rows::label_len))]
pub fn label_len(bytes: &[u8]) -> usize
    ensures exact { result ≡ label_len bytes.now }
    ensures within { result ≤ length bytes.now }
{
    let bare = before_colon(run(Set::LabelBytes, bytes), bytes);
    let quoted = before_colon(string_len(bytes), bytes);
    bare.max(quoted)
}

/// How many bytes a label at the front takes, and at how many places from there on none begins.
#[derive(Clone, Copy)]
pub struct Labels {
    pub len: usize,
    pub free: usize,
}

/// A label at the front, and how far none begins.
#[tactic(auto, unfolding(crate::specs::Rows::label_len))]
fn seek_label(bytes: &[u8]) -> Labels
    ensures exact { result.len ≡ label_len bytes.now }
    ensures free { LabelFree result.free bytes.now }
{
    let reach = run(Set::LabelBytes, bytes);
    let bare = before_colon(reach, bytes);
    let quoted = before_colon(string_len(bytes), bytes);
    Labels {
        len: bare.max(quoted),
        free: if bare == 0 { reach } else { 0 },
    }
}

/// The same, where none begins at this many places: a run of bytes is looked over once.
pub fn label_at(free: usize, bytes: &[u8]) -> Labels
    requires { LabelFree free bytes.now }
    ensures exact { result.len ≡ label_len bytes.now }
    ensures free { LabelFree result.free bytes.now }
{
    if free == 0 {
        seek_label(bytes)
    } else {
        Labels { len: 0, free }
    }
}

/// One byte, and behind it what takes so many bytes; the byte alone where that is nothing.
fn behind(form: TokenForm, len: usize) -> Fit
    requires { len < 2 ^ 63 }
    ensures { result ≡ better (fit form (if nat_lt 0 len then len + 1 else 0)) (fit forms.Other 1) }
{
    if len > 0 {
        Fit { form, len: len + 1 }
    } else {
        Fit {
            form: TokenForm::Other,
            len: 1,
        }
    }
}

/// The longer of two, and of equals the first.
fn better(a: Fit, b: Fit) -> Fit
    ensures { result ≡ better a b }
{
    if a.len < b.len { b } else { a }
}

/// Three dots.
#[tactic(auto, unfolding(crate::specs::Rows::dots_len))]
fn dots_len(bytes: &[u8]) -> usize
    ensures exact { result ≡ dots_len bytes.now }
    ensures within { result ≤ length bytes.now }
{
    match bytes {
        [b'.', b'.', b'.', ..] => 3,
        _ => 0,
    }
}

/// A byte and a string directly behind it.
fn behind_len(wanted: u8, bytes: &[u8]) -> usize
    ensures exact { result ≡ behind wanted string_len bytes.now }
    ensures within { result ≤ length bytes.now }
{
    match bytes {
        [] => 0,
        [first, rest @ ..] => {
            let n = string_len(rest);
            if *first == wanted && 0 < n { n + 1 } else { 0 }
        }
    }
}

fn one_if(test: bool) -> usize
    ensures { result ≡ (if test then 1 else 0) }
{
    if test { 1 } else { 0 }
}

/// The longest row but a label's, where the first byte is no sigil, sign, quote or dot.
fn plain(first: u8, rest: &[u8], bytes: &[u8]) -> Fit
    requires whole { bytes.now ≡ first ∷ rest.now }
    requires plain { Plain first }
    ensures { result ≡ rest_fit bytes.now }
{
    if first.is_ascii_digit() {
        Fit {
            form: TokenForm::Number,
            len: run(Set::Digits, rest) + 1,
        }
    } else if starts_word(first) {
        better(
            Fit {
                form: TokenForm::Word,
                len: run(Set::WordBytes, rest) + 1,
            },
            Fit {
                form: TokenForm::CStr,
                len: behind_len(b'c', bytes),
            },
        )
    } else {
        let len = one_if(first.is_ascii_graphic());
        better(
            Fit {
                form: TokenForm::Number,
                len: 0,
            },
            Fit {
                form: TokenForm::Other,
                len,
            },
        )
    }
}

/// The longest row but a label's, by the first byte.
fn unlabelled(first: u8, rest: &[u8], bytes: &[u8]) -> Fit
    requires { bytes.now ≡ first ∷ rest.now }
    ensures { result ≡ rest_fit bytes.now }
{
    match first {
        b'%' => behind(TokenForm::Local, name_len(rest)),
        b'@' => behind(TokenForm::Global, name_len(rest)),
        b'$' => behind(TokenForm::Comdat, name_len(rest)),
        b'#' => behind(TokenForm::Group, run(Set::Digits, rest)),
        b'-' => behind(TokenForm::Number, run(Set::Digits, rest)),
        b'!' => Fit {
            form: TokenForm::Meta,
            len: run(Set::MetaBytes, rest) + 1,
        },
        b'"' => better(
            Fit {
                form: TokenForm::Number,
                len: 0,
            },
            Fit {
                form: TokenForm::Str,
                len: string_len(bytes),
            },
        ),
        b'.' => better(
            Fit {
                form: TokenForm::Dots,
                len: dots_len(bytes),
            },
            Fit {
                form: TokenForm::Other,
                len: 1,
            },
        ),
        _ => plain(first, rest, bytes),
    }
}

/// The longest token at the front, where a label takes so many bytes; its length is 0 where there
/// is none.
#[tactic(auto, unfolding(crate::specs::Rows::best_fit))]
pub fn best_fit(label_len: usize, first: u8, rest: &[u8], bytes: &[u8]) -> Fit
    requires label { label_len ≡ spec.label_len bytes.now }
    requires whole { bytes.now ≡ first ∷ rest.now }
    ensures { result ≡ best_fit bytes.now }
{
    let label = Fit {
        form: TokenForm::Label,
        len: label_len,
    };
    better(label, unlabelled(first, rest, bytes))
}
