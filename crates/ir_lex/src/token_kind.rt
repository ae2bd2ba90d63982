//! What a token is to a grammar: the kind that a reader chooses by.

ghost use Rattle.std.specs.Prelude.{◌≡◌, ◌<◌, ◌≤◌, ◌^◌, nat_eq, [], ◌∷◌, drop, length};
ghost use Rattle.ir_lex.specs.TokenKinds.{integer_kind, is_plain_number, width_of, width_kind, begins_word, mark_kind, kind_of, listed_kind, word_kind, number};

use crate::bytes::{Set, run, starts_word};
use crate::names::global_kind;
use crate::token::{Token, TokenForm};
use crate::words::listed_kind;

/// The kind of a token: each word and mark that the language speaks of, and each sort of name,
/// number and string, as LLVM's `lltok` has them. Words that the grammar never tells apart share a kind.
///
/// LangRef, "Identifiers", "Linkage Types", "Parameter Attributes", "Instruction Reference".
#[derive(Clone, Copy, PartialEq, Eq)]
pub enum TokenKind {
    /// A decimal integer: `-12`.
    Number,
    /// A local value, block or type: `%x`.
    Local,
    /// A global name that is none of the next three: `@main`.
    Global,
    /// A global that is written by its number, but for `NumberedDefinition`: `@5`.
    NumberedGlobal,
    /// A global whose name is `llvm` or begins `llvm.`, but for the lifetime markers: `@llvm.memcpy.p0.p0.i64`.
    ReservedGlobal,
    /// `@llvm.lifetime.start.p0` or `@llvm.lifetime.end.p0`.
    LifetimeMarker,
    /// A block's label, with its colon: `entry:`.
    Label,
    /// A comdat: `$f`.
    ComdatName,
    /// Metadata, but for a `!` alone: `!dbg`, `!3`.
    Meta,
    /// A `!` alone.
    Bang,
    /// An attribute group: `#0`.
    Group,
    /// A string: `"x86_64"`.
    Str,
    /// The bytes of an array: `c"hello\00"`.
    CStr,
    /// `(`
    OpenParen,
    /// `)`
    CloseParen,
    /// `[`
    OpenBracket,
    /// `]`
    CloseBracket,
    /// `{`
    OpenBrace,
    /// `}`
    CloseBrace,
    /// `<`
    OpenAngle,
    /// `>`
    CloseAngle,
    /// `,`
    Comma,
    /// `=`
    Equals,
    /// What is refused wherever it stands: `...`, `^`, and `#` directly before a word.
    RefusedMark,
    /// Any other single byte.
    Mark,
    /// A word that is none of the following.
    Word,
    /// An integer type that registers and memory hold: `i8`, `i16`, `i32`, `i64`.
    MemoryInteger,
    /// An integer type that registers alone hold: `iN` with any other N from 1 to 64.
    RegisterInteger,
    /// `i0`, or `iN` with N past 64.
    RefusedInteger,
    /// `ptr`
    Ptr,
    /// `void`
    Void,
    /// `token`, `metadata`: refused where a type may stand.
    RefusedType,
    /// `naked`, `null_pointer_is_valid`: refused in attribute groups too.
    RefusedAttribute,
    /// A word of a part of the language that is left out.
    RefusedWord,
    /// `source_filename`
    SourceFilename,
    /// `target`
    Target,
    /// `datalayout`
    Datalayout,
    /// `triple`
    Triple,
    /// `type`
    Type,
    /// `opaque`
    Opaque,
    /// `comdat`
    Comdat,
    /// `any`
    Any,
    /// `attributes`
    Attributes,
    /// `declare`
    Declare,
    /// `define`
    Define,
    /// `global`
    GlobalVariable,
    /// `constant`
    Constant,
    /// `private`
    Private,
    /// `internal`
    Internal,
    /// `external`
    External,
    /// `linkonce`
    Linkonce,
    /// `linkonce_odr`
    LinkonceOdr,
    /// `weak`
    Weak,
    /// `weak_odr`
    WeakOdr,
    /// `available_externally`
    AvailableExternally,
    /// `dso_local`, `dso_preemptable`, `default`, `hidden`, `protected`
    Visibility,
    /// `unnamed_addr`, `local_unnamed_addr`
    UnnamedAddr,
    /// `fastcc`, `ccc`
    CallingConvention,
    /// `zeroinitializer`
    ZeroInitializer,
    /// The `x` of an array's type.
    Times,
    /// `true`
    True,
    /// `false`
    False,
    /// `null`
    Null,
    /// `poison`
    Poison,
    /// `getelementptr`
    GetElementPtr,
    /// `inbounds`
    Inbounds,
    /// `nusw`
    Nusw,
    /// `nuw`
    Nuw,
    /// `nsw`
    Nsw,
    /// `exact`
    Exact,
    /// `disjoint`
    Disjoint,
    /// `samesign`
    Samesign,
    /// `nneg`
    Nneg,
    /// `add`
    Add,
    /// `sub`
    Sub,
    /// `mul`
    Mul,
    /// `shl`
    Shl,
    /// `udiv`
    Udiv,
    /// `sdiv`
    Sdiv,
    /// `lshr`
    Lshr,
    /// `ashr`
    Ashr,
    /// `urem`
    Urem,
    /// `srem`
    Srem,
    /// `and`
    And,
    /// `xor`
    Xor,
    /// `or`
    Or,
    /// `icmp`
    Icmp,
    /// `eq`
    Eq,
    /// `ne`
    Ne,
    /// `ugt`
    Ugt,
    /// `uge`
    Uge,
    /// `ult`
    Ult,
    /// `ule`
    Ule,
    /// `sgt`
    Sgt,
    /// `sge`
    Sge,
    /// `slt`
    Slt,
    /// `sle`
    Sle,
    /// `zext`
    Zext,
    /// `sext`
    Sext,
    /// `trunc`
    Trunc,
    /// `to`
    To,
    /// `select`
    Select,
    /// `freeze`
    Freeze,
    /// `phi`
    Phi,
    /// `alloca`
    Alloca,
    /// `load`
    Load,
    /// `store`
    Store,
    /// `tail`, `notail`
    TailMark,
    /// `call`
    Call,
    /// `ret`
    Ret,
    /// `br`
    Br,
    /// `switch`
    Switch,
    /// `unreachable`
    Unreachable,
    /// `label`
    LabelType,
    /// `align`
    Align,
    /// An attribute of a parameter that is one word: `noundef`.
    ParameterWord,
    /// An attribute of a parameter that a group in brackets follows: `dereferenceable`.
    ParameterGroup,
    /// `noinline`
    Noinline,
    /// `optnone`
    Optnone,
    /// A global that is written by its number, with `= private` or `= internal` behind it: `@5`.
    NumberedDefinition,
}

/// Digits that write a number without a needless zero.
fn is_plain_number(digits: &[u8]) -> bool
    ensures { result ≡ is_plain_number digits.now }
{
    match digits {
        [] => false,
        [first, others @ ..] => {
            let padded = *first == b'0' && !others.is_empty();
            !padded && run(Set::Digits, digits) == digits.len()
        }
    }
}

/// The number that these digits write; 65 for more than two, of which the first is no zero.
fn width_of(digits: &[u8]) -> u32
    ensures exact { result ≡ width_of digits.now }
    ensures within { result ≤ 2277 }
{
    match digits {
        [] => 0,
        [units] => u32::from(units.saturating_sub(b'0')),
        [tens, units] => {
            10 * u32::from(tens.saturating_sub(b'0')) + u32::from(units.saturating_sub(b'0'))
        }
        [..] => 65,
    }
}

/// The kind of an integer type of this width.
fn width_kind(width: u32) -> TokenKind
    ensures { result ≡ width_kind width }
{
    if 0 < width && width <= 64 {
        TokenKind::RegisterInteger
    } else {
        TokenKind::RefusedInteger
    }
}

/// The kind of a word that the list doesn't have.
fn integer_kind(text: &[u8]) -> TokenKind
    ensures { result ≡ integer_kind text.now }
{
    match text {
        [b'i', digits @ ..] => {
            if is_plain_number(digits) {
                width_kind(width_of(digits))
            } else {
                TokenKind::Word
            }
        }
        _ => TokenKind::Word,
    }
}

/// The kind of a word: its entry in the list of words, or that of an integer type.
#[tactic(auto, unfolding(crate::specs::TokenKinds::word_kind))]
fn word_kind(text: &[u8]) -> TokenKind
    ensures { result ≡ word_kind text.now }
{
    let listed = listed_kind(text);
    if listed.is(TokenKind::Word) {
        integer_kind(text)
    } else {
        listed
    }
}

/// Whether a word may begin here.
fn begins_word(bytes: &[u8]) -> bool
    ensures { result ≡ begins_word bytes.now }
{
    match bytes {
        [] => false,
        [first, ..] => starts_word(*first),
    }
}

/// The kind of this byte alone before others.
#[tactic(auto, unfolding(crate::specs::TokenKinds::mark_kind))]
fn single_kind(mark: u8, behind: &[u8]) -> TokenKind
    ensures { result ≡ mark_kind (mark ∷ []) behind.now }
{
    match mark {
        b'(' => TokenKind::OpenParen,
        b')' => TokenKind::CloseParen,
        b'[' => TokenKind::OpenBracket,
        b']' => TokenKind::CloseBracket,
        b'{' => TokenKind::OpenBrace,
        b'}' => TokenKind::CloseBrace,
        b'<' => TokenKind::OpenAngle,
        b'>' => TokenKind::CloseAngle,
        b',' => TokenKind::Comma,
        b'=' => TokenKind::Equals,
        b'^' => TokenKind::RefusedMark,
        b'#' => {
            if begins_word(behind) {
                TokenKind::RefusedMark
            } else {
                TokenKind::Mark
            }
        }
        _ => TokenKind::Mark,
    }
}

/// The kind of a single byte before others.
#[tactic(auto, unfolding(crate::specs::TokenKinds::mark_kind))]
fn mark_kind(text: &[u8], behind: &[u8]) -> TokenKind
    ensures { result ≡ mark_kind text.now behind.now }
{
    match text {
        [mark] => single_kind(*mark, behind),
        _ => TokenKind::Mark,
    }
}

/// The kind of a token of this form before others.
#[tactic(auto, unfolding(crate::specs::TokenKinds::kind_of))]
pub fn kind_of(form: TokenForm, text: &[u8], behind: &[u8]) -> TokenKind
    requires { length behind.now < 2 ^ 32 }
    ensures { result ≡ kind_of form text.now behind.now }
{
    match form {
        TokenForm::Label => TokenKind::Label,
        TokenForm::Number => TokenKind::Number,
        TokenForm::Word => word_kind(text),
        TokenForm::Local => TokenKind::Local,
        TokenForm::Global => global_kind(text, behind),
        TokenForm::Comdat => TokenKind::ComdatName,
        TokenForm::Meta => {
            if text.len() == 1 {
                TokenKind::Bang
            } else {
                TokenKind::Meta
            }
        }
        TokenForm::Group => TokenKind::Group,
        TokenForm::Str => TokenKind::Str,
        TokenForm::CStr => TokenKind::CStr,
        TokenForm::Dots => TokenKind::RefusedMark,
        TokenForm::Other => mark_kind(text, behind),
    }
}

impl TokenKind {
    /// The place of the kind in the list of kinds, counted from 0.
    pub fn number(self) -> u8
        ensures { result ≡ number self }
    {
        self as u8
    }

    /// Whether this is the same kind.
    pub fn is(self, other: TokenKind) -> bool
        ensures { result ≡ nat_eq (number self) (number other) }
    {
        self.number() == other.number()
    }
}

impl<'a> Token<'a> {
    /// The width in bits of an integer type, a token of kind `MemoryInteger` or
    /// `RegisterInteger`: what its two digits at most write.
    pub fn width(&self) -> u32
        ensures { result ≡ width_of (drop 1 self.now.text.now) }
    {
        match self.text {
            [] => 0,
            [_i, digits @ ..] => width_of(digits),
        }
    }
}
