//! What instructions begin with (LangRef, "Instruction Reference").

ghost use Rattle.std.specs.Prelude.{◌≡◌};
ghost use Rattle.ir_lex.specs.Tok.{tok};
ghost use Rattle.ir_parse_parts.specs.Readers.{Returns};
ghost use Rattle.ir_parse_parts.specs.Rules.{is_among};
ghost use Rattle.ir_parse_parts.specs.Classes.{tokens, refusal, one_of_at};
ghost use Rattle.ir_parse_bodies.specs.Lines.{GIVING, OPCODES, opcode_of, begun_of};

use crate::meanings::meant;
use ir_lex::{Token, TokenKind};
use ir_parse_parts::{Fault, ReaderError, TokenFault, Tokens, refusal};
use ir_tree::BinaryOp;

/// An operation on values. Its attachments follow it.
#[derive(Clone, Copy)]
pub enum Operation {
    /// `add`, `sub`, `mul`, `shl`: may have `nuw` and `nsw`.
    Wrapping(BinaryOp),
    /// `udiv`, `sdiv`, `lshr`, `ashr`: may have `exact`.
    Dividing(BinaryOp),
    /// `urem`, `srem`, `and`, `xor`: has no flags.
    Plain(BinaryOp),
    Or,
    Icmp,
    Zext,
    Sext,
    Trunc,
    Select,
    Freeze,
}

/// The first word of an instruction.
#[derive(Clone, Copy)]
pub enum Opcode {
    Value(Operation),
    Phi,
    Alloca,
    Load,
    GetElementPtr,
    Store,
    /// `tail`, `notail`
    Tail,
    Call,
}

/// The first word of an instruction, and the line that it stands on.
#[derive(Clone, Copy)]
pub struct Begun {
    pub opcode: Opcode,
    pub line: u32,
}

#[tactic(auto, unfolding(ir_parse_parts::specs::Rules::is_among))]
fn opcode_means(t: &Token) -> Result<Opcode, TokenFault>
    ensures { result ≡ is_among tokens refusal OPCODES opcode_of (tok t.now) }
{
    match t.kind {
        TokenKind::Add => Ok(Opcode::Value(Operation::Wrapping(BinaryOp::Add))),
        TokenKind::Sub => Ok(Opcode::Value(Operation::Wrapping(BinaryOp::Sub))),
        TokenKind::Mul => Ok(Opcode::Value(Operation::Wrapping(BinaryOp::Mul))),
        TokenKind::Shl => Ok(Opcode::Value(Operation::Wrapping(BinaryOp::Shl))),
        TokenKind::Udiv => Ok(Opcode::Value(Operation::Dividing(BinaryOp::Udiv))),
        TokenKind::Sdiv => Ok(Opcode::Value(Operation::Dividing(BinaryOp::Sdiv))),
        TokenKind::Lshr => Ok(Opcode::Value(Operation::Dividing(BinaryOp::Lshr))),
        TokenKind::Ashr => Ok(Opcode::Value(Operation::Dividing(BinaryOp::Ashr))),
        TokenKind::Urem => Ok(Opcode::Value(Operation::Plain(BinaryOp::Urem))),
        TokenKind::Srem => Ok(Opcode::Value(Operation::Plain(BinaryOp::Srem))),
        TokenKind::And => Ok(Opcode::Value(Operation::Plain(BinaryOp::And))),
        TokenKind::Xor => Ok(Opcode::Value(Operation::Plain(BinaryOp::Xor))),
        TokenKind::Or => Ok(Opcode::Value(Operation::Or)),
        TokenKind::Icmp => Ok(Opcode::Value(Operation::Icmp)),
        TokenKind::Zext => Ok(Opcode::Value(Operation::Zext)),
        TokenKind::Sext => Ok(Opcode::Value(Operation::Sext)),
        TokenKind::Trunc => Ok(Opcode::Value(Operation::Trunc)),
        TokenKind::Select => Ok(Opcode::Value(Operation::Select)),
        TokenKind::Freeze => Ok(Opcode::Value(Operation::Freeze)),
        TokenKind::Phi => Ok(Opcode::Phi),
        TokenKind::Alloca => Ok(Opcode::Alloca),
        TokenKind::Load => Ok(Opcode::Load),
        TokenKind::GetElementPtr => Ok(Opcode::GetElementPtr),
        TokenKind::Store => Ok(Opcode::Store),
        TokenKind::TailMark => Ok(Opcode::Tail),
        TokenKind::Call => Ok(Opcode::Call),
        head => Err(refusal(head)),
    }
}

/// What a token means as the first word of an instruction that may give a result.
#[tactic(auto, unfolding(ir_parse_parts::specs::Rules::is_among))]
fn giving_means(t: &Token) -> Result<Opcode, TokenFault>
    ensures { result ≡ is_among tokens refusal GIVING opcode_of (tok t.now) }
{
    if t.kind.is(TokenKind::Store) {
        Err(TokenFault::Syntax)
    } else {
        opcode_means(t)
    }
}

fn begun_means(t: &Token) -> Result<Begun, TokenFault>
    ensures { result ≡ is_among tokens refusal OPCODES begun_of (tok t.now) }
{
    match opcode_means(t) {
        Ok(opcode) => Ok(Begun {
            opcode,
            line: t.line,
        }),
        Err(kind) => Err(kind),
    }
}

/// Takes the first word of an instruction behind the name of its result.
pub fn giving_at(tokens: &mut Tokens) -> Result<Opcode, ReaderError>
    ensures { Returns (λ x. (x, tokens.new)) result (one_of_at GIVING opcode_of tokens.old) }
{
    let left = tokens.left();
    match tokens.take() {
        None => Err(ReaderError::Fault(Fault {
            left,
            kind: TokenFault::Syntax,
        })),
        Some(t) => meant(left, giving_means(&t)),
    }
}

/// Takes the first word of an instruction that has no name before it.
pub fn begun_at(tokens: &mut Tokens) -> Result<Begun, ReaderError>
    ensures { Returns (λ x. (x, tokens.new)) result (one_of_at OPCODES begun_of tokens.old) }
{
    let left = tokens.left();
    match tokens.take() {
        None => Err(ReaderError::Fault(Fault {
            left,
            kind: TokenFault::Syntax,
        })),
        Some(t) => meant(left, begun_means(&t)),
    }
}
