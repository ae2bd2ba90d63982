//! Sets of bytes, and how far they reach.

ghost use Rattle.std.specs.Prelude.{◌≡◌, ◌≤◌, length};
ghost use Rattle.ir_lex.specs.Bytes.{starts_name, starts_word, has, run};

/// A set of bytes that tokens are made of.
#[derive(Clone, Copy)]
pub enum Set {
    /// `0-9`
    Digits,
    /// `-a-zA-Z$._0-9`
    LabelBytes,
    /// `a-zA-Z0-9_.`
    WordBytes,
    /// `-a-zA-Z$._0-9` and the backslash
    MetaBytes,
    /// all but `"`
    Inside,
}

/// Whether it begins a bare name: `-a-zA-Z$._`.
pub fn starts_name(b: u8) -> bool
    ensures { result ≡ starts_name b }
{
    b.is_ascii_alphabetic() || b == b'-' || b == b'$' || b == b'.' || b == b'_'
}

/// Whether it begins a word: `a-zA-Z_`.
pub fn starts_word(b: u8) -> bool
    ensures { result ≡ starts_word b }
{
    b.is_ascii_alphabetic() || b == b'_'
}

#[tactic(auto, unfolding(crate::specs::Bytes::has))]
fn has(set: Set, b: u8) -> bool
    ensures { result ≡ has set b }
{
    match set {
        Set::Digits => b.is_ascii_digit(),
        Set::LabelBytes => starts_name(b) || b.is_ascii_digit(),
        Set::WordBytes => starts_word(b) || b.is_ascii_digit() || b == b'.',
        Set::MetaBytes => starts_name(b) || b.is_ascii_digit() || b == b'\\',
        Set::Inside => b != b'"',
    }
}

/// How many bytes at the front are of the set.
pub fn run(set: Set, bytes: &[u8]) -> usize
    ensures exact { result ≡ run set bytes.now }
    ensures within { result ≤ length bytes.now }
{
    let mut n = 0;
    'each: while n < bytes.len() && has(set, bytes[n]) {
        n += 1;
    }
    n
}
