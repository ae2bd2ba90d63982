//! Reads terminators (LangRef, "Terminator Instructions").

ghost use Rattle.std.specs.Prelude.{◌≡◌};
ghost use Rattle.ir_lex.specs.Tok.{tok};
ghost use Rattle.ir_parse_parts.specs.Readers.{Returns};
ghost use Rattle.ir_parse_parts.specs.Rules.{is_among, is_valued};
ghost use Rattle.ir_parse_parts.specs.Classes.{tokens, refusal, one_of_at};
ghost use Rattle.ir_parse_parts.specs.Operands.{IsReg};
ghost use Rattle.ir_parse_operands.specs.Terminators.{case_classes, matched_of, number_matched, ENDS, ending_of};
ghost use Rattle.ir_parse_operands.specs.TerminatorsAt.{branch_at, bracketed_cases_at, returning_at, target_at, choosing_at, branching_at, constant_at, case_of_at, case_at, cases_at, end_of_cases_at, switching_at, behind_end_at, terminator_at};

use crate::values::operand_at;
use ir_lex::{Token, TokenKind};
use ir_parse_parts::{
    Argument, Case, Fault, Name, ReaderError, Terminator, TokenFault, Tokens, attachments_at,
    bit_at, done, expect, integer_at, literal, local_at, refusal, reg_at, result_at, type_refusal,
};
use ir_tree::{Reg, Rows};
use std::alloc::Global;
use std::mem::replace;

/// What a terminator begins with.
#[derive(Clone, Copy)]
pub enum End {
    Ret,
    Br,
    Switch,
    Unreachable,
}

/// What a terminator begins with, and the line that it begins on.
#[derive(Clone, Copy)]
pub struct Ending {
    pub end: End,
    pub line: u32,
}

/// A terminator, and the line of its first token.
#[derive(Drop)]
pub struct Ended {
    pub terminator: Terminator,
    pub line: u32,
}

/// The number of a case: its width and its bits.
#[derive(Clone, Copy)]
pub struct Matched {
    pub width: u8,
    pub bits: u64,
}

/// Puts a terminator in the place of what stood there.
fn put(place: &mut Terminator, terminator: Terminator)
    ensures { place.new ≡ terminator }
{
    drop(replace(place, terminator));
}

/// Reads what follows `ret`.
#[tactic(auto, unfolding(crate::specs::TerminatorsAt::returning_at))]
fn returning_into(
    alloc: Global,
    place: &mut Terminator,
    tokens: &mut Tokens,
) -> Result<(), ReaderError>
    ensures { Returns (λ _. (place.new, tokens.new)) result (returning_at tokens.old) }
{
    match result_at(tokens)? {
        None => {
            put(place, Terminator::Return(None));
            Ok(())
        }
        Some(reg) => {
            let operand = operand_at(alloc, reg, tokens)?;
            put(place, Terminator::Return(Some(Argument { reg, operand })));
            Ok(())
        }
    }
}

/// Reads `label Local`.
#[tactic(auto, unfolding(crate::specs::TerminatorsAt::target_at))]
pub fn target_at(alloc: Global, tokens: &mut Tokens) -> Result<Name, ReaderError>
    ensures { Returns (λ x. (x, tokens.new)) result (target_at tokens.old) }
{
    expect(TokenKind::LabelType, tokens)?;
    local_at(alloc, tokens)
}

/// Reads `, label Local`.
#[tactic(auto, unfolding(crate::specs::TerminatorsAt::branch_at))]
fn branch_at(alloc: Global, tokens: &mut Tokens) -> Result<Name, ReaderError>
    ensures { Returns (λ x. (x, tokens.new)) result (branch_at tokens.old) }
{
    expect(TokenKind::Comma, tokens)?;
    target_at(alloc, tokens)
}

/// Reads `i1 operand , label Local , label Local`.
fn choosing_into(
    alloc: Global,
    place: &mut Terminator,
    tokens: &mut Tokens,
) -> Result<(), ReaderError>
    ensures { Returns (λ _. (place.new, tokens.new)) result (choosing_at tokens.old) }
{
    let width = bit_at(tokens)?;
    let condition = operand_at(alloc, Reg::Int(width), tokens)?;
    let if_true = branch_at(alloc, tokens)?;
    let if_false = branch_at(alloc, tokens)?;
    put(
        place,
        Terminator::Branch {
            condition,
            if_true,
            if_false,
        },
    );
    Ok(())
}

/// Reads what follows `br`.
#[tactic(auto, unfolding(crate::specs::TerminatorsAt::branching_at))]
fn branching_into(
    alloc: Global,
    place: &mut Terminator,
    tokens: &mut Tokens,
) -> Result<(), ReaderError>
    ensures { Returns (λ _. (place.new, tokens.new)) result (branching_at tokens.old) }
{
    if tokens.comes(TokenKind::LabelType) {
        let to = target_at(alloc, tokens)?;
        put(place, Terminator::Jump(to));
        Ok(())
    } else {
        choosing_into(alloc, place, tokens)
    }
}

fn number_matched(reg: Reg, t: &Token) -> Result<Matched, TokenFault>
    requires { IsReg reg }
    ensures { result ≡ number_matched reg (tok t.now) }
{
    match reg {
        Reg::Ptr => Err(TokenFault::Syntax),
        Reg::Int(width) => match literal(width, t.text) {
            None => Err(TokenFault::Number),
            Some(bits) => Ok(Matched { width, bits }),
        },
    }
}

#[tactic(auto, unfolding(ir_parse_parts::specs::Rules::is_valued))]
fn constant_means(reg: Reg, t: &Token) -> Result<Matched, TokenFault>
    requires { IsReg reg }
    ensures { result ≡ is_valued tokens refusal (case_classes reg) (matched_of reg) (tok t.now) }
{
    match t.kind {
        TokenKind::Number => number_matched(reg, t),
        TokenKind::True => Ok(Matched { width: 1, bits: 1 }),
        TokenKind::False => Ok(Matched { width: 1, bits: 0 }),
        head => Err(refusal(head)),
    }
}

/// Takes the number of a case of this type, `true` or `false`.
pub fn constant_at(reg: Reg, tokens: &mut Tokens) -> Result<Matched, ReaderError>
    requires { IsReg reg }
    ensures { Returns (λ x. (x, tokens.new)) result (constant_at reg tokens.old) }
{
    let left = tokens.left();
    match tokens.take() {
        None => Err(ReaderError::Fault(Fault {
            left,
            kind: TokenFault::Syntax,
        })),
        Some(t) => match constant_means(reg, &t) {
            Ok(x) => Ok(x),
            Err(kind) => Err(ReaderError::Fault(Fault { left, kind })),
        },
    }
}

/// Reads a case: a type, a number of it, and a target.
#[tactic(auto, unfolding(crate::specs::TerminatorsAt::case_at, crate::specs::TerminatorsAt::case_of_at))]
fn case_at(alloc: Global, tokens: &mut Tokens) -> Result<Case, ReaderError>
    ensures { Returns (λ x. (x, tokens.new)) result (case_at tokens.old) }
{
    let reg = reg_at(tokens)?;
    let matched = constant_at(reg, tokens)?;
    let target = branch_at(alloc, tokens)?;
    done(Case {
        reg,
        width: matched.width,
        bits: matched.bits,
        target,
    })
}

/// Reads all cases that stand here.
fn cases_at(alloc: Global, tokens: &mut Tokens) -> Result<Vec<Case>, ReaderError>
    ensures { Returns (λ x. (x.items, tokens.new)) result (cases_at tokens.old) }
{
    let mut cases = Vec::new(alloc);
    'each: while tokens.comes_reg() {
        let case = case_at(alloc, tokens)?;
        cases.push(case)?;
    }
    Ok(cases)
}

/// Takes the bracket behind the cases of a `switch`.
#[tactic(auto, unfolding(ir_parse_parts::specs::Rules::is_class))]
fn end_of_cases_at(tokens: &mut Tokens) -> Result<(), ReaderError>
    ensures { Returns (λ x. (tt, tokens.new)) result (end_of_cases_at tokens.old) }
{
    let left = tokens.left();
    match tokens.take() {
        None => Err(ReaderError::Fault(Fault {
            left,
            kind: TokenFault::Syntax,
        })),
        Some(t) => {
            if t.kind.is(TokenKind::CloseBracket) {
                Ok(())
            } else {
                Err(ReaderError::Fault(Fault {
                    left,
                    kind: type_refusal(t.kind),
                }))
            }
        }
    }
}

/// Reads the cases of a `switch`, in their brackets.
#[tactic(auto, unfolding(crate::specs::TerminatorsAt::bracketed_cases_at))]
fn bracketed_cases_at(alloc: Global, tokens: &mut Tokens) -> Result<Vec<Case>, ReaderError>
    ensures { Returns (λ x. (x.items, tokens.new)) result (bracketed_cases_at tokens.old) }
{
    expect(TokenKind::OpenBracket, tokens)?;
    let cases = cases_at(alloc, tokens)?;
    end_of_cases_at(tokens)?;
    Ok(cases)
}

/// Reads what follows `switch`.
fn switching_into(
    alloc: Global,
    place: &mut Terminator,
    tokens: &mut Tokens,
) -> Result<(), ReaderError>
    ensures { Returns (λ _. (place.new, tokens.new)) result (switching_at tokens.old) }
{
    let width = integer_at(tokens)?;
    let value = operand_at(alloc, Reg::Int(width), tokens)?;
    let default = branch_at(alloc, tokens)?;
    let cases = bracketed_cases_at(alloc, tokens)?;
    put(
        place,
        Terminator::Switch {
            width,
            value,
            default,
            cases: Rows::of(cases),
        },
    );
    Ok(())
}

#[tactic(auto, unfolding(ir_parse_parts::specs::Rules::is_among))]
fn ending_means(t: &Token) -> Result<Ending, TokenFault>
    ensures { result ≡ is_among tokens refusal ENDS ending_of (tok t.now) }
{
    let line = t.line;
    match t.kind {
        TokenKind::Ret => Ok(Ending {
            end: End::Ret,
            line,
        }),
        TokenKind::Br => Ok(Ending { end: End::Br, line }),
        TokenKind::Switch => Ok(Ending {
            end: End::Switch,
            line,
        }),
        TokenKind::Unreachable => Ok(Ending {
            end: End::Unreachable,
            line,
        }),
        head => Err(refusal(head)),
    }
}

fn ending_at(tokens: &mut Tokens) -> Result<Ending, ReaderError>
    ensures { Returns (λ x. (x, tokens.new)) result (one_of_at ENDS ending_of tokens.old) }
{
    let left = tokens.left();
    match tokens.take() {
        None => Err(ReaderError::Fault(Fault {
            left,
            kind: TokenFault::Syntax,
        })),
        Some(t) => match ending_means(&t) {
            Ok(x) => Ok(x),
            Err(kind) => Err(ReaderError::Fault(Fault { left, kind })),
        },
    }
}

fn behind_end_into(
    alloc: Global,
    end: End,
    place: &mut Terminator,
    tokens: &mut Tokens,
) -> Result<(), ReaderError>
    ensures { Returns (λ _. (place.new, tokens.new)) result (behind_end_at end tokens.old) }
{
    match end {
        End::Ret => returning_into(alloc, place, tokens),
        End::Br => branching_into(alloc, place, tokens),
        End::Switch => switching_into(alloc, place, tokens),
        End::Unreachable => {
            put(place, Terminator::Unreachable);
            Ok(())
        }
    }
}

/// Reads a terminator and its attachments, into the place of what stood there.
#[tactic(auto, unfolding(crate::specs::TerminatorsAt::terminator_at))]
pub fn terminator_into(
    alloc: Global,
    place: &mut Ended,
    tokens: &mut Tokens,
) -> Result<(), ReaderError>
    ensures { Returns (λ _. (place.new, tokens.new)) result (terminator_at tokens.old) }
{
    let ending = ending_at(tokens)?;
    place.line = ending.line;
    behind_end_into(alloc, ending.end, &mut place.terminator, tokens)?;
    attachments_at(alloc, tokens)
}
