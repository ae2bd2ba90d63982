//! Reads instructions (LangRef, "Instruction Reference").

ghost use Rattle.std.specs.Prelude.{◌≡◌};
ghost use Rattle.ir_parse_parts.specs.Alphabet.{among};
ghost use Rattle.ir_parse_parts.specs.Readers.{Returns, next_is};
ghost use Rattle.ir_lex.specs.Tok.{tok};
ghost use Rattle.ir_parse_parts.specs.Rules.{is_among};
ghost use Rattle.ir_parse_parts.specs.Ahead.{WRAPS};
ghost use Rattle.ir_parse_parts.specs.Classes.{tokens, refusal, one_of_at};
ghost use Rattle.ir_parse_parts.specs.Operands.{IsReg};
ghost use Rattle.ir_parse_bodies.specs.Instructions.{is_nuw, with_wrap, no_flags, PREDICATES, predicate_of};
ghost use Rattle.ir_parse_operands.specs.Listing.{put_at};
ghost use Rattle.ir_parse_bodies.specs.InstructionsAt.{arm_at, second_at, wraps_at, on_two_at, wrapping_at, dividing_at, joining_at, comparing_at, casting_at, extending_at, narrowing_at, selecting_at, freezing_at, loading_at, storing_at};

use crate::meanings::meant;
use ir_lex::{Token, TokenKind};
use ir_parse_operands::{Listing, align_at, argument_at, operand_at, pointed_at};
use ir_parse_parts::{
    Argument, Fault, Instr, Operand, ReaderError, TokenFault, Tokens, bit_at, expect, integer_at,
    maybe_at, refusal, reg_at, scalar_at,
};
use ir_tree::{BinaryOp, CastOp, Flags, Predicate, Reg};
use std::alloc::Global;

/// Takes `nuw` or `nsw`; the answer is whether it is `nuw`.
#[tactic(auto, unfolding(ir_parse_parts::specs::Rules::is_among))]
fn wrap_at(tokens: &mut Tokens) -> Result<bool, ReaderError>
    ensures { Returns (λ x. (x, tokens.new)) result (one_of_at WRAPS is_nuw tokens.old) }
{
    let left = tokens.left();
    match tokens.take() {
        None => Err(ReaderError::Fault(Fault {
            left,
            kind: TokenFault::Syntax,
        })),
        Some(t) => match t.kind {
            TokenKind::Nuw => Ok(true),
            TokenKind::Nsw => Ok(false),
            head => Err(ReaderError::Fault(Fault {
                left,
                kind: refusal(head),
            })),
        },
    }
}

fn with_wrap(flags: Flags, nuw: bool) -> Flags
    ensures { result ≡ with_wrap flags nuw }
{
    if nuw {
        Flags {
            nuw: true,
            nsw: flags.nsw,
            exact: flags.exact,
        }
    } else {
        Flags {
            nuw: flags.nuw,
            nsw: true,
            exact: flags.exact,
        }
    }
}

/// Reads the flags `nuw` and `nsw`, any number of them.
#[tactic(auto, unfolding(crate::specs::InstructionsAt::wraps_at))]
fn wraps_at(tokens: &mut Tokens) -> Result<Flags, ReaderError>
    ensures { Returns (λ x. (x, tokens.new)) result (wraps_at tokens.old) }
{
    let mut flags = Flags {
        nuw: false,
        nsw: false,
        exact: false,
    };
    'each: while tokens.comes_wrap() {
        let nuw = wrap_at(tokens)?;
        flags = with_wrap(flags, nuw);
    }
    Ok(flags)
}

/// Reads `, operand`.
#[tactic(auto, unfolding(crate::specs::InstructionsAt::second_at))]
fn second_at(alloc: Global, reg: Reg, tokens: &mut Tokens) -> Result<Operand, ReaderError>
    requires { IsReg reg }
    ensures { Returns (λ x. (x, tokens.new)) result (second_at reg tokens.old) }
{
    expect(TokenKind::Comma, tokens)?;
    operand_at(alloc, reg, tokens)
}

/// Reads `iN operand , operand`.
pub fn on_two_into(
    alloc: Global,
    op: BinaryOp,
    flags: Flags,
    list: &mut Listing,
    tokens: &mut Tokens,
) -> Result<(), ReaderError>
    ensures { Returns (λ _. (list.new.lines.items, tokens.new)) result (put_at list.old (on_two_at op flags) tokens.old) }
{
    let width = integer_at(tokens)?;
    let left = operand_at(alloc, Reg::Int(width), tokens)?;
    let right = second_at(alloc, Reg::Int(width), tokens)?;
    list.put(Instr::Binary {
        op,
        flags,
        width,
        left,
        right,
    })
}

/// Reads what follows `add`, `sub`, `mul` or `shl`.
#[tactic(auto, unfolding(crate::specs::InstructionsAt::wrapping_at))]
pub fn wrapping_into(
    alloc: Global,
    op: BinaryOp,
    list: &mut Listing,
    tokens: &mut Tokens,
) -> Result<(), ReaderError>
    ensures { Returns (λ _. (list.new.lines.items, tokens.new)) result (put_at list.old (wrapping_at op) tokens.old) }
{
    let flags = wraps_at(tokens)?;
    on_two_into(alloc, op, flags, list, tokens)
}

/// Reads what follows `udiv`, `sdiv`, `lshr` or `ashr`.
#[tactic(auto, unfolding(crate::specs::InstructionsAt::dividing_at))]
pub fn dividing_into(
    alloc: Global,
    op: BinaryOp,
    list: &mut Listing,
    tokens: &mut Tokens,
) -> Result<(), ReaderError>
    ensures { Returns (λ _. (list.new.lines.items, tokens.new)) result (put_at list.old (dividing_at op) tokens.old) }
{
    let exact = maybe_at(TokenKind::Exact, tokens)?;
    let flags = Flags {
        nuw: false,
        nsw: false,
        exact,
    };
    on_two_into(alloc, op, flags, list, tokens)
}

/// Reads what follows `or`.
#[tactic(auto, unfolding(crate::specs::InstructionsAt::joining_at))]
pub fn joining_into(
    alloc: Global,
    list: &mut Listing,
    tokens: &mut Tokens,
) -> Result<(), ReaderError>
    ensures { Returns (λ _. (list.new.lines.items, tokens.new)) result (put_at list.old joining_at tokens.old) }
{
    maybe_at(TokenKind::Disjoint, tokens)?;
    let flags = Flags {
        nuw: false,
        nsw: false,
        exact: false,
    };
    on_two_into(alloc, BinaryOp::Or, flags, list, tokens)
}

#[tactic(auto, unfolding(ir_parse_parts::specs::Rules::is_among))]
fn predicate_means(t: &Token) -> Result<Predicate, TokenFault>
    ensures { result ≡ is_among tokens refusal PREDICATES predicate_of (tok t.now) }
{
    match t.kind {
        TokenKind::Eq => Ok(Predicate::Eq),
        TokenKind::Ne => Ok(Predicate::Ne),
        TokenKind::Ugt => Ok(Predicate::Ugt),
        TokenKind::Uge => Ok(Predicate::Uge),
        TokenKind::Ult => Ok(Predicate::Ult),
        TokenKind::Ule => Ok(Predicate::Ule),
        TokenKind::Sgt => Ok(Predicate::Sgt),
        TokenKind::Sge => Ok(Predicate::Sge),
        TokenKind::Slt => Ok(Predicate::Slt),
        TokenKind::Sle => Ok(Predicate::Sle),
        head => Err(refusal(head)),
    }
}

/// Takes the condition of an `icmp`.
fn predicate_at(tokens: &mut Tokens) -> Result<Predicate, ReaderError>
    ensures { Returns (λ x. (x, tokens.new)) result (one_of_at PREDICATES predicate_of tokens.old) }
{
    let left = tokens.left();
    match tokens.take() {
        None => Err(ReaderError::Fault(Fault {
            left,
            kind: TokenFault::Syntax,
        })),
        Some(t) => meant(left, predicate_means(&t)),
    }
}

/// Reads what follows `icmp`.
pub fn comparing_into(
    alloc: Global,
    list: &mut Listing,
    tokens: &mut Tokens,
) -> Result<(), ReaderError>
    ensures { Returns (λ _. (list.new.lines.items, tokens.new)) result (put_at list.old comparing_at tokens.old) }
{
    maybe_at(TokenKind::Samesign, tokens)?;
    let predicate = predicate_at(tokens)?;
    let reg = reg_at(tokens)?;
    let left = operand_at(alloc, reg, tokens)?;
    let right = second_at(alloc, reg, tokens)?;
    list.put(Instr::Icmp {
        predicate,
        reg,
        left,
        right,
    })
}

/// Reads `reg operand to reg`.
#[tactic(auto, unfolding(crate::specs::InstructionsAt::casting_at))]
pub fn casting_into(
    alloc: Global,
    op: CastOp,
    list: &mut Listing,
    tokens: &mut Tokens,
) -> Result<(), ReaderError>
    ensures { Returns (λ _. (list.new.lines.items, tokens.new)) result (put_at list.old (casting_at op) tokens.old) }
{
    let from = reg_at(tokens)?;
    let value = operand_at(alloc, from, tokens)?;
    expect(TokenKind::To, tokens)?;
    let to = reg_at(tokens)?;
    list.put(Instr::Cast {
        op,
        from,
        value,
        to,
    })
}

/// Reads what follows `zext`.
#[tactic(auto, unfolding(crate::specs::InstructionsAt::extending_at))]
pub fn extending_into(
    alloc: Global,
    op: CastOp,
    list: &mut Listing,
    tokens: &mut Tokens,
) -> Result<(), ReaderError>
    ensures { Returns (λ _. (list.new.lines.items, tokens.new)) result (put_at list.old (extending_at op) tokens.old) }
{
    maybe_at(TokenKind::Nneg, tokens)?;
    casting_into(alloc, op, list, tokens)
}

/// Reads what follows `trunc`.
#[tactic(auto, unfolding(crate::specs::InstructionsAt::narrowing_at))]
pub fn narrowing_into(
    alloc: Global,
    op: CastOp,
    list: &mut Listing,
    tokens: &mut Tokens,
) -> Result<(), ReaderError>
    ensures { Returns (λ _. (list.new.lines.items, tokens.new)) result (put_at list.old (narrowing_at op) tokens.old) }
{
    wraps_at(tokens)?;
    casting_into(alloc, op, list, tokens)
}

/// Reads `, reg operand`.
#[tactic(auto, unfolding(crate::specs::InstructionsAt::arm_at))]
fn arm_at(alloc: Global, tokens: &mut Tokens) -> Result<Argument, ReaderError>
    ensures { Returns (λ x. (x, tokens.new)) result (arm_at tokens.old) }
{
    expect(TokenKind::Comma, tokens)?;
    argument_at(alloc, tokens)
}

/// Reads what follows `select`.
pub fn selecting_into(
    alloc: Global,
    list: &mut Listing,
    tokens: &mut Tokens,
) -> Result<(), ReaderError>
    ensures { Returns (λ _. (list.new.lines.items, tokens.new)) result (put_at list.old selecting_at tokens.old) }
{
    let width = bit_at(tokens)?;
    let condition = operand_at(alloc, Reg::Int(width), tokens)?;
    let if_true = arm_at(alloc, tokens)?;
    let if_false = arm_at(alloc, tokens)?;
    list.put(Instr::Select {
        condition,
        if_true,
        if_false,
    })
}

/// Reads what follows `freeze`.
#[tactic(auto, unfolding(crate::specs::InstructionsAt::freezing_at))]
pub fn freezing_into(
    alloc: Global,
    list: &mut Listing,
    tokens: &mut Tokens,
) -> Result<(), ReaderError>
    ensures { Returns (λ _. (list.new.lines.items, tokens.new)) result (put_at list.old freezing_at tokens.old) }
{
    let reg = reg_at(tokens)?;
    let value = operand_at(alloc, reg, tokens)?;
    list.put(Instr::Freeze { reg, value })
}

/// Reads what follows `load`.
pub fn loading_into(
    alloc: Global,
    list: &mut Listing,
    tokens: &mut Tokens,
) -> Result<(), ReaderError>
    ensures { Returns (λ _. (list.new.lines.items, tokens.new)) result (put_at list.old loading_at tokens.old) }
{
    let reg = scalar_at(tokens)?;
    let address = pointed_at(alloc, tokens)?;
    let align = align_at(alloc, tokens)?;
    list.put(Instr::Load {
        reg,
        address,
        align,
    })
}

/// Reads what follows `store`.
pub fn storing_into(
    alloc: Global,
    list: &mut Listing,
    tokens: &mut Tokens,
) -> Result<(), ReaderError>
    ensures { Returns (λ _. (list.new.lines.items, tokens.new)) result (put_at list.old storing_at tokens.old) }
{
    let reg = scalar_at(tokens)?;
    let value = operand_at(alloc, reg, tokens)?;
    let address = pointed_at(alloc, tokens)?;
    let align = align_at(alloc, tokens)?;
    list.put(Instr::Store {
        reg,
        value,
        address,
        align,
    })
}
