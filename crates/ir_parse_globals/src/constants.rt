//! Reads the constants that variables and their parts begin with (LangRef, "Constants").

ghost use Rattle.std.specs.Prelude.{◌≡◌, option_map, Ok, IfOk, IfSome};
ghost use Rattle.ir_lex.specs.Tok.{tok};
ghost use Rattle.ir_parse_parts.specs.Readers.{Returns};
ghost use Rattle.ir_parse_parts.specs.Rules.{in_range, is_valued};
ghost use Rattle.ir_parse_parts.specs.Classes.{tokens, refusal};
ghost use Rattle.ir_parse_parts.specs.Operands.{IsReg, named};
ghost use Rattle.ir_parse_parts.specs.declared.raw.Operand.TheVariants as operands;
ghost use Rattle.ir_parse_globals.specs.Constants.{CONSTANTS, type_of, plain, number_of, constant_of};
ghost use Rattle.ir_parse_globals.specs.ConstantsAt.{single_at, constant_at};

use ir_lex::{Token, TokenKind};
use ir_parse_operands::address_at;
use ir_parse_parts::{
    Fault, InitHead, Name, Operand, ReaderError, TokenFault, Tokens, done, literal, named, refusal,
};
use ir_tree::Reg;
use std::alloc::{AllocError, Global};

/// The type of a constant: `i1`, which nothing in memory has, where it is of no scalar.
fn type_of(scalar: Option<Reg>) -> Reg
    ensures { result ≡ type_of scalar }
{
    match scalar {
        Some(reg) => reg,
        None => Reg::Int(1),
    }
}

/// A literal of an integer. Of a pointer a number is none: it is kept as one of `i1`. Where no scalar
/// is written the number itself is kept.
fn number_means(
    alloc: Global,
    scalar: Option<Reg>,
    t: &Token,
) -> Result<Result<InitHead, TokenFault>, AllocError>
    requires { IfSome scalar IsReg }
    ensures { IfOk result (λ x. x ≡ in_range (number_of scalar (tok t.now))) }
{
    match scalar {
        Some(Reg::Int(width)) => match literal(width, t.text) {
            None => Ok(Err(TokenFault::Number)),
            Some(bits) => Ok(Ok(InitHead::Plain(Operand::Number { width, bits }))),
        },
        Some(Reg::Ptr) => Ok(Ok(InitHead::Plain(Operand::Number { width: 1, bits: 0 }))),
        None => {
            let name = Name::of(alloc, t)?;
            Ok(Ok(InitHead::Number(name)))
        }
    }
}

/// A global that is written by its number.
fn global_means(alloc: Global, t: &Token) -> Result<Result<InitHead, TokenFault>, AllocError>
    ensures { IfOk result (λ x. x ≡ in_range (option_map (λ name. plain (operands.Global name)) (named (tok t.now)))) }
{
    match named(alloc, t)? {
        None => Ok(Err(TokenFault::Number)),
        Some(name) => Ok(Ok(InitHead::Plain(Operand::Global(name)))),
    }
}

/// A global that is written by a name.
fn spelled_means(alloc: Global, t: &Token) -> Result<Result<InitHead, TokenFault>, AllocError>
    ensures { IfOk result (λ x. x ≡ Ok (plain (operands.Global (tok t.now)))) }
{
    let name = Name::of(alloc, t)?;
    Ok(Ok(InitHead::Plain(Operand::Global(name))))
}

/// What a token means where a constant may stand.
#[tactic(auto, unfolding(ir_parse_parts::specs::Rules::is_valued))]
fn constant_means(
    alloc: Global,
    scalar: Option<Reg>,
    t: &Token,
) -> Result<Result<InitHead, TokenFault>, AllocError>
    requires { IfSome scalar IsReg }
    ensures { IfOk result (λ x. x ≡ is_valued tokens refusal CONSTANTS (constant_of scalar) (tok t.now)) }
{
    match t.kind {
        TokenKind::Number => number_means(alloc, scalar, t),
        TokenKind::True => Ok(Ok(InitHead::Plain(Operand::Number { width: 1, bits: 1 }))),
        TokenKind::False => Ok(Ok(InitHead::Plain(Operand::Number { width: 1, bits: 0 }))),
        TokenKind::Null => Ok(Ok(InitHead::Plain(Operand::Null))),
        TokenKind::Poison => Ok(Ok(InitHead::Plain(Operand::Poison(type_of(scalar))))),
        TokenKind::Global => spelled_means(alloc, t),
        TokenKind::NumberedGlobal | TokenKind::NumberedDefinition => global_means(alloc, t),
        head => Ok(Err(refusal(head))),
    }
}

fn single_at(
    alloc: Global,
    scalar: Option<Reg>,
    tokens: &mut Tokens,
) -> Result<InitHead, ReaderError>
    requires { IfSome scalar IsReg }
    ensures { Returns (λ x. (x, tokens.new)) result (single_at scalar tokens.old) }
{
    let left = tokens.left();
    match tokens.take() {
        None => Err(ReaderError::Fault(Fault {
            left,
            kind: TokenFault::Syntax,
        })),
        Some(t) => match constant_means(alloc, scalar, &t)? {
            Ok(x) => Ok(x),
            Err(kind) => Err(ReaderError::Fault(Fault { left, kind })),
        },
    }
}

/// Reads an operand that is no local, for a scalar of this type, or for what is no scalar.
///
/// A number is a literal of an integer's type. For a pointer a number of any size is read and kept as
/// one of `i1`, which fits nothing, as the verifier says; for an array, a structure or a type name the
/// number is kept as it is written. `poison` for what is no scalar is one of `i1`.
#[tactic(auto, unfolding(crate::specs::ConstantsAt::constant_at))]
pub fn constant_at(
    alloc: Global,
    scalar: Option<Reg>,
    tokens: &mut Tokens,
) -> Result<InitHead, ReaderError>
    requires { IfSome scalar IsReg }
    ensures { Returns (λ x. (x, tokens.new)) result (constant_at scalar tokens.old) }
{
    if tokens.comes(TokenKind::GetElementPtr) {
        let address = address_at(alloc, tokens)?;
        done(InitHead::Plain(address))
    } else {
        single_at(alloc, scalar, tokens)
    }
}
