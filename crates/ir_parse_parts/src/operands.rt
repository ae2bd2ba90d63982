//! Reads types of registers, names and operands.

ghost use Rattle.std.specs.Prelude.{◌≡◌, ◌&&◌, not, nat_lt, Ok, IfOk, IfSome};
ghost use Rattle.std.specs.Char.{is_ascii_digit};
ghost use Rattle.std.specs.List.{list_all};
ghost use Rattle.ir_lex.specs.TokenKinds.{number};
ghost use Rattle.ir_lex.specs.Tok.{tok};
ghost use Rattle.ir_parse_parts.specs.Readers.{Returns};
ghost use Rattle.ir_parse_parts.specs.Rules.{is_among, is_exact, is_valued};
ghost use Rattle.ir_parse_parts.specs.Classes.{tokens, refusal};
ghost use Rattle.ir_parse_parts.specs.Literals.{IsWidth};
ghost use Rattle.ir_parse_parts.specs.Decimals.{decimal};
ghost use Rattle.ir_parse_parts.specs.declared.raw.Operand.TheVariants as operands;
ghost use Rattle.ir_parse_parts.specs.Operands.{INTEGER, REG, SCALAR, RESULT, LOCAL, IsReg, type_refusal, memory_refusal, width, reg_of, is_bit, result_of, is_numeral, named_by, named, group_named, global_named, number_means, local_value, global_value, classes_of, operand_of};
ghost use Rattle.ir_parse_parts.specs.OperandsAt.{reg_at, integer_at, bit_at, scalar_at, result_at, local_at, simple_at, maybe_at};

use crate::literals::literal;
use crate::name::Name;
use crate::numerals::decimal;
use crate::raw::Operand;
use crate::terminals::{expect, refusal};
use crate::tokens::Tokens;
use crate::{Fault, ReaderError, TokenFault};
use ir_lex::{Token, TokenKind};
use ir_tree::Reg;
use std::alloc::{AllocError, Global};

/// Why a token can't stand where a type may.
pub fn type_refusal(head: TokenKind) -> TokenFault
    ensures { result ≡ type_refusal (number head) }
{
    match head {
        TokenKind::Target | TokenKind::RefusedType => TokenFault::Profile,
        _ => refusal(head),
    }
}

/// Why a token can't stand where a type of memory must.
pub fn memory_refusal(head: TokenKind) -> TokenFault
    ensures { result ≡ memory_refusal (number head) }
{
    match head {
        TokenKind::RegisterInteger => TokenFault::Profile,
        _ => type_refusal(head),
    }
}

/// The width of an integer type, in bits.
pub fn width(t: &Token) -> u8
    ensures exact { result ≡ width (tok t.now) }
    ensures ranged { IsWidth result }
{
    t.width().max(1).min(64) as u8
}

/// The type that a token of its kind writes.
pub fn reg_of(t: &Token) -> Reg
    ensures exact { result ≡ reg_of (tok t.now) }
    ensures ranged { IsReg result }
{
    if t.kind.is(TokenKind::Ptr) {
        Reg::Ptr
    } else {
        Reg::Int(width(t))
    }
}

#[tactic(auto, unfolding(crate::specs::Rules::is_among))]
fn reg_means(t: &Token) -> Result<Reg, TokenFault>
    ensures exact { result ≡ is_among tokens type_refusal REG reg_of (tok t.now) }
    ensures ranged { IfOk result IsReg }
{
    match t.kind {
        TokenKind::MemoryInteger | TokenKind::RegisterInteger | TokenKind::Ptr => Ok(reg_of(t)),
        head => Err(type_refusal(head)),
    }
}

/// Takes the type of a register: `iN` or `ptr`.
pub fn reg_at(tokens: &mut Tokens) -> Result<Reg, ReaderError>
    ensures exact { Returns (λ x. (x, tokens.new)) result (reg_at tokens.old) }
    ensures ranged { IfOk result IsReg }
{
    let left = tokens.left();
    match tokens.take() {
        None => Err(ReaderError::Fault(Fault {
            left,
            kind: TokenFault::Syntax,
        })),
        Some(t) => match reg_means(&t) {
            Ok(x) => Ok(x),
            Err(kind) => Err(ReaderError::Fault(Fault { left, kind })),
        },
    }
}

#[tactic(auto, unfolding(crate::specs::Rules::is_among))]
fn integer_means(t: &Token) -> Result<u8, TokenFault>
    ensures exact { result ≡ is_among tokens type_refusal INTEGER width (tok t.now) }
    ensures ranged { IfOk result IsWidth }
{
    match t.kind {
        TokenKind::MemoryInteger | TokenKind::RegisterInteger => Ok(width(t)),
        head => Err(type_refusal(head)),
    }
}

/// Takes an integer type; the answer is its width in bits.
pub fn integer_at(tokens: &mut Tokens) -> Result<u8, ReaderError>
    ensures exact { Returns (λ x. (x, tokens.new)) result (integer_at tokens.old) }
    ensures ranged { IfOk result IsWidth }
{
    let left = tokens.left();
    match tokens.take() {
        None => Err(ReaderError::Fault(Fault {
            left,
            kind: TokenFault::Syntax,
        })),
        Some(t) => match integer_means(&t) {
            Ok(x) => Ok(x),
            Err(kind) => Err(ReaderError::Fault(Fault { left, kind })),
        },
    }
}

#[tactic(auto, unfolding(crate::specs::Rules::is_exact))]
fn bit_means(t: &Token) -> Result<u8, TokenFault>
    ensures exact { result ≡ is_exact tokens type_refusal INTEGER is_bit width (tok t.now) }
    ensures ranged { IfOk result IsWidth }
{
    match t.kind {
        TokenKind::MemoryInteger | TokenKind::RegisterInteger => {
            let bits = width(t);
            if bits == 1 {
                Ok(bits)
            } else {
                Err(type_refusal(t.kind))
            }
        }
        head => Err(type_refusal(head)),
    }
}

/// Takes `i1`; the answer is its width in bits.
pub fn bit_at(tokens: &mut Tokens) -> Result<u8, ReaderError>
    ensures exact { Returns (λ x. (x, tokens.new)) result (bit_at tokens.old) }
    ensures ranged { IfOk result IsWidth }
{
    let left = tokens.left();
    match tokens.take() {
        None => Err(ReaderError::Fault(Fault {
            left,
            kind: TokenFault::Syntax,
        })),
        Some(t) => match bit_means(&t) {
            Ok(x) => Ok(x),
            Err(kind) => Err(ReaderError::Fault(Fault { left, kind })),
        },
    }
}

#[tactic(auto, unfolding(crate::specs::Rules::is_among))]
fn scalar_means(t: &Token) -> Result<Reg, TokenFault>
    ensures exact { result ≡ is_among tokens memory_refusal SCALAR reg_of (tok t.now) }
    ensures ranged { IfOk result IsReg }
{
    match t.kind {
        TokenKind::MemoryInteger | TokenKind::Ptr => Ok(reg_of(t)),
        head => Err(memory_refusal(head)),
    }
}

/// Takes the type of a scalar in memory: `i8`, `i16`, `i32`, `i64` or `ptr`.
pub fn scalar_at(tokens: &mut Tokens) -> Result<Reg, ReaderError>
    ensures exact { Returns (λ x. (x, tokens.new)) result (scalar_at tokens.old) }
    ensures ranged { IfOk result IsReg }
{
    let left = tokens.left();
    match tokens.take() {
        None => Err(ReaderError::Fault(Fault {
            left,
            kind: TokenFault::Syntax,
        })),
        Some(t) => match scalar_means(&t) {
            Ok(x) => Ok(x),
            Err(kind) => Err(ReaderError::Fault(Fault { left, kind })),
        },
    }
}

#[tactic(auto, unfolding(crate::specs::Rules::is_among))]
fn result_means(t: &Token) -> Result<Option<Reg>, TokenFault>
    ensures exact { result ≡ is_among tokens type_refusal RESULT result_of (tok t.now) }
    ensures ranged { IfOk result (λ x. IfSome x IsReg) }
{
    match t.kind {
        TokenKind::Void => Ok(None),
        TokenKind::MemoryInteger | TokenKind::RegisterInteger | TokenKind::Ptr => Ok(Some(reg_of(
            t,
        ))),
        head => Err(type_refusal(head)),
    }
}

/// Takes the type of a result: `void`, or the type of a register.
pub fn result_at(tokens: &mut Tokens) -> Result<Option<Reg>, ReaderError>
    ensures exact { Returns (λ x. (x, tokens.new)) result (result_at tokens.old) }
    ensures ranged { IfOk result (λ x. IfSome x IsReg) }
{
    let left = tokens.left();
    match tokens.take() {
        None => Err(ReaderError::Fault(Fault {
            left,
            kind: TokenFault::Syntax,
        })),
        Some(t) => match result_means(&t) {
            Ok(x) => Ok(x),
            Err(kind) => Err(ReaderError::Fault(Fault { left, kind })),
        },
    }
}

fn are_digits(text: &[u8]) -> bool
    ensures { result ≡ list_all is_ascii_digit text.now }
{
    text.iter().all(|d| d.is_ascii_digit())
}

/// Whether these are digits, at least one.
fn is_numeral(bare: &[u8]) -> bool
    ensures { result ≡ is_numeral bare.now }
{
    match bare {
        [] => false,
        [_, ..] => are_digits(bare),
    }
}

/// Whether a name may be written by these bytes: they are no number from `2^32` on.
fn may_name(bare: &[u8]) -> bool
    ensures { result ≡ not (is_numeral bare.now && not (nat_lt (decimal bare.now) 4294967296)) }
{
    if is_numeral(bare) {
        match decimal(bare) {
            Some(n) => n < 4294967296,
            None => false,
        }
    } else {
        true
    }
}

/// The name that a token writes by these bytes, unless they are a number from `2^32` on.
fn named_by(alloc: Global, t: &Token, bare: &[u8]) -> Result<Option<Name>, AllocError>
    ensures { IfOk result (λ x. x ≡ named_by (tok t.now) bare.now) }
{
    if may_name(bare) {
        let name = Name::of(alloc, t)?;
        Ok(Some(name))
    } else {
        Ok(None)
    }
}

/// The name that a token writes, unless that is a number from `2^32` on.
#[tactic(auto, unfolding(crate::specs::Operands::named))]
pub fn named(alloc: Global, t: &Token) -> Result<Option<Name>, AllocError>
    ensures { IfOk result (λ x. x ≡ named (tok t.now)) }
{
    named_by(alloc, t, t.bare())
}

/// The name of an attribute group that a token writes, unless its number is `2^32` or more.
#[tactic(auto, unfolding(crate::specs::Operands::group_named))]
pub fn group_named(alloc: Global, t: &Token) -> Result<Option<Name>, AllocError>
    ensures { IfOk result (λ x. x ≡ group_named (tok t.now)) }
{
    match t.text {
        [] => named_by(alloc, t, &[]),
        [_mark, digits @ ..] => named_by(alloc, t, digits),
    }
}

#[tactic(auto, unfolding(crate::specs::Rules::is_valued))]
fn local_means(alloc: Global, t: &Token) -> Result<Result<Name, TokenFault>, AllocError>
    ensures { IfOk result (λ x. x ≡ is_valued tokens refusal LOCAL named (tok t.now)) }
{
    if t.kind.is(TokenKind::Local) {
        match named(alloc, t)? {
            None => Ok(Err(TokenFault::Number)),
            Some(name) => Ok(Ok(name)),
        }
    } else {
        Ok(Err(refusal(t.kind)))
    }
}

/// Takes the name of a local.
pub fn local_at(alloc: Global, tokens: &mut Tokens) -> Result<Name, ReaderError>
    ensures { Returns (λ x. (x, tokens.new)) result (local_at tokens.old) }
{
    let left = tokens.left();
    match tokens.take() {
        None => Err(ReaderError::Fault(Fault {
            left,
            kind: TokenFault::Syntax,
        })),
        Some(t) => match local_means(alloc, &t)? {
            Ok(x) => Ok(x),
            Err(kind) => Err(ReaderError::Fault(Fault { left, kind })),
        },
    }
}

/// The name that a token of a global's kind writes, unless that is a number from `2^32` on.
pub fn global_named(alloc: Global, t: &Token) -> Result<Option<Name>, AllocError>
    ensures { IfOk result (λ x. x ≡ global_named (tok t.now)) }
{
    match t.kind {
        TokenKind::NumberedGlobal | TokenKind::NumberedDefinition => named(alloc, t),
        _ => {
            let name = Name::of(alloc, t)?;
            Ok(Some(name))
        }
    }
}

fn number_means(reg: Reg, t: &Token) -> Result<Operand, TokenFault>
    requires { IsReg reg }
    ensures { result ≡ number_means reg (tok t.now) }
{
    match reg {
        Reg::Ptr => Err(TokenFault::Syntax),
        Reg::Int(width) => match literal(width, t.text) {
            None => Err(TokenFault::Number),
            Some(bits) => Ok(Operand::Number { width, bits }),
        },
    }
}

fn local_value(alloc: Global, t: &Token) -> Result<Result<Operand, TokenFault>, AllocError>
    ensures { IfOk result (λ x. x ≡ local_value (tok t.now)) }
{
    match named(alloc, t)? {
        None => Ok(Err(TokenFault::Number)),
        Some(name) => Ok(Ok(Operand::Local(name))),
    }
}

/// A global that is written by its number.
fn global_value(alloc: Global, t: &Token) -> Result<Result<Operand, TokenFault>, AllocError>
    ensures { IfOk result (λ x. x ≡ global_value (tok t.now)) }
{
    match named(alloc, t)? {
        None => Ok(Err(TokenFault::Number)),
        Some(name) => Ok(Ok(Operand::Global(name))),
    }
}

/// A global that is written by a name.
fn global_spelled(alloc: Global, t: &Token) -> Result<Result<Operand, TokenFault>, AllocError>
    ensures { IfOk result (λ x. x ≡ Ok (operands.Global (tok t.now))) }
{
    let name = Name::of(alloc, t)?;
    Ok(Ok(Operand::Global(name)))
}

/// What a token means where an operand of a type may stand.
#[tactic(auto, unfolding(crate::specs::Rules::is_valued))]
pub fn operand_means(
    alloc: Global,
    reg: Reg,
    t: &Token,
) -> Result<Result<Operand, TokenFault>, AllocError>
    requires { IsReg reg }
    ensures { IfOk result (λ x. x ≡ is_valued tokens refusal (classes_of reg) (operand_of reg) (tok t.now)) }
{
    match t.kind {
        TokenKind::Number => Ok(number_means(reg, t)),
        TokenKind::Local => local_value(alloc, t),
        TokenKind::True => Ok(Ok(Operand::Number { width: 1, bits: 1 })),
        TokenKind::False => Ok(Ok(Operand::Number { width: 1, bits: 0 })),
        TokenKind::Null => Ok(Ok(Operand::Null)),
        TokenKind::Poison => Ok(Ok(Operand::Poison(reg))),
        TokenKind::Global => global_spelled(alloc, t),
        TokenKind::NumberedGlobal | TokenKind::NumberedDefinition => global_value(alloc, t),
        head => Ok(Err(refusal(head))),
    }
}

/// Takes an operand of a type that is one token. A number is a literal of the type; `true` and
/// `false` are those of `i1`.
pub fn simple_at(alloc: Global, reg: Reg, tokens: &mut Tokens) -> Result<Operand, ReaderError>
    requires { IsReg reg }
    ensures { Returns (λ x. (x, tokens.new)) result (simple_at reg tokens.old) }
{
    let left = tokens.left();
    match tokens.take() {
        None => Err(ReaderError::Fault(Fault {
            left,
            kind: TokenFault::Syntax,
        })),
        Some(t) => match operand_means(alloc, reg, &t)? {
            Ok(x) => Ok(x),
            Err(kind) => Err(ReaderError::Fault(Fault { left, kind })),
        },
    }
}

/// Takes a word where it stands; the answer is whether it does.
pub fn maybe_at(word: TokenKind, tokens: &mut Tokens) -> Result<bool, ReaderError>
    ensures { Returns (λ x. (x, tokens.new)) result (maybe_at word tokens.old) }
{
    if tokens.comes(word) {
        expect(word, tokens)?;
        Ok(true)
    } else {
        Ok(false)
    }
}
