//! Reads calls (LangRef, "call Instruction").

ghost use Rattle.std.specs.Prelude.{◌≡◌, IfErr, IfOk, OnOk};
ghost use Rattle.ir_lex.specs.Tok.{tok};
ghost use Rattle.ir_parse_parts.specs.Alphabet.{among};
ghost use Rattle.ir_tree.specs.declared.failure.Failure.TheVariants.{NoMemory};
ghost use Rattle.ir_parse_parts.specs.Readers.{Returns, next_is};
ghost use Rattle.ir_parse_parts.specs.Rules.{is_among, is_exact, is_valued};
ghost use Rattle.ir_parse_parts.specs.Classes.{tokens, itself};
ghost use Rattle.ir_parse_parts.specs.Operands.{IsReg, REG, type_refusal, reg_of, classes_of, operand_of};
ghost use Rattle.ir_tree.specs.declared.operand.Reg.TheVariants.{Ptr};
ghost use Rattle.ir_parse_operands.specs.Adding.{pushed_at};
ghost use Rattle.ir_parse_bodies.specs.Adding.{joined_at};
ghost use Rattle.ir_parse_bodies.specs.Listed.{kept_in, listed_at};
ghost use Rattle.ir_parse_bodies.specs.Calls.{same_reg, is_type, marker_refusal, called};
ghost use Rattle.ir_parse_bodies.specs.CallsAt.{CONVENTIONS, convention_at, conventions_at, written_type_at, further_type_at, types_behind_at, some_types_at, listed_types_at, types_at, argument_behind_at, argument_at, further_argument_at, some_arguments_at, any_arguments_at, type_again_at, argument_of_at, further_of_at, some_of_at, arguments_of_at, arguments_at, called_value_at, marker_at, unmarked_at, unmarked_value_at, callee_at, maybe_types_at, called_at, calling_of_at, calling_at, tail_calling_at};

use crate::meanings::meant;
use ir_lex::{Token, TokenKind};
use ir_parse_heads::{
    call_attributes_at, end_of_none_at, parameter_attribute_at, parameter_attributes_at,
};
use ir_parse_operands::{Listing, address_at, operand_at, push};
use ir_parse_parts::{
    Argument, Fault, Instr, Name, Operand, ReaderError, TokenFault, Tokens, attachments_at, done,
    expect, operand_means, reg_at, reg_of, result_at, type_refusal,
};
use ir_tree::{Reg, Rows};
use std::alloc::{AllocError, Global};

/// Reads a calling convention, or an attribute of the result.
#[tactic(auto, unfolding(crate::specs::CallsAt::convention_at))]
fn convention_at(alloc: Global, tokens: &mut Tokens) -> Result<(), ReaderError>
    ensures { Returns (λ x. (tt, tokens.new)) result (convention_at tokens.old) }
{
    if tokens.comes(TokenKind::CallingConvention) {
        expect(TokenKind::CallingConvention, tokens)
    } else {
        parameter_attribute_at(alloc, tokens)
    }
}

/// Whether a calling convention, or an attribute of the result, comes.
fn comes_convention(rest: &Tokens) -> bool
    ensures { result ≡ next_is (among tokens CONVENTIONS) rest.now }
{
    match rest.kind() {
        Some(head) => matches!(
            head,
            TokenKind::CallingConvention
                | TokenKind::ParameterWord
                | TokenKind::ParameterGroup
                | TokenKind::Align
        ),
        None => false,
    }
}

/// Reads what stands before the result of a call: `fastcc noundef`.
#[tactic(auto, unfolding(crate::specs::CallsAt::conventions_at))]
fn conventions_at(alloc: Global, tokens: &mut Tokens) -> Result<(), ReaderError>
    ensures { Returns (λ x. (tt, tokens.new)) result (conventions_at tokens.old) }
{
    'each: while comes_convention(tokens) {
        convention_at(alloc, tokens)?;
    }
    Ok(())
}

/// What a token means as the type of a parameter of a callee.
#[tactic(auto, unfolding(ir_parse_parts::specs::Rules::is_among))]
fn written_type_means(alloc: Global, t: &Token) -> Result<Result<Name, TokenFault>, AllocError>
    ensures { IfOk result (λ x. x ≡ is_among tokens type_refusal REG itself (tok t.now)) }
{
    match t.kind {
        TokenKind::MemoryInteger | TokenKind::RegisterInteger | TokenKind::Ptr => {
            let name = Name::of(alloc, t)?;
            Ok(Ok(name))
        }
        head => Ok(Err(type_refusal(head))),
    }
}

/// Takes the type of a parameter of a callee.
fn written_type_at(alloc: Global, tokens: &mut Tokens) -> Result<Name, ReaderError>
    ensures { Returns (λ x. (x, tokens.new)) result (written_type_at tokens.old) }
{
    let left = tokens.left();
    match tokens.take() {
        None => Err(ReaderError::Fault(Fault {
            left,
            kind: TokenFault::Syntax,
        })),
        Some(t) => meant(left, written_type_means(alloc, &t)?),
    }
}

#[tactic(auto, unfolding(crate::specs::CallsAt::further_type_at))]
fn further_type_at(alloc: Global, tokens: &mut Tokens) -> Result<Name, ReaderError>
    ensures { Returns (λ x. (x, tokens.new)) result (further_type_at tokens.old) }
{
    expect(TokenKind::Comma, tokens)?;
    written_type_at(alloc, tokens)
}

/// Reads the types behind a first one, and adds that in front.
#[tactic(auto, unfolding(crate::specs::CallsAt::types_behind_at))]
fn types_behind_at(
    alloc: Global,
    first: Name,
    tokens: &mut Tokens,
) -> Result<Vec<Name>, ReaderError>
    ensures { Returns (λ x. (x.items, tokens.new)) result (types_behind_at first tokens.old) }
{
    let mut types = Vec::new(alloc);
    types.push(first)?;
    'each: while tokens.comes(TokenKind::Comma) {
        let further = further_type_at(alloc, tokens)?;
        types.push(further)?;
    }
    Ok(types)
}

#[tactic(auto, unfolding(crate::specs::CallsAt::some_types_at))]
fn some_types_at(alloc: Global, tokens: &mut Tokens) -> Result<Vec<Name>, ReaderError>
    ensures { Returns (λ x. (x.items, tokens.new)) result (some_types_at tokens.old) }
{
    let first = written_type_at(alloc, tokens)?;
    types_behind_at(alloc, first, tokens)
}

#[tactic(auto, unfolding(crate::specs::CallsAt::listed_types_at))]
fn listed_types_at(alloc: Global, tokens: &mut Tokens) -> Result<Vec<Name>, ReaderError>
    ensures { Returns (λ x. (x.items, tokens.new)) result (listed_types_at tokens.old) }
{
    if tokens.comes_reg() {
        let types = some_types_at(alloc, tokens)?;
        expect(TokenKind::CloseParen, tokens)?;
        Ok(types)
    } else {
        end_of_none_at(tokens)?;
        Ok(Vec::new(alloc))
    }
}

/// Reads the types of a callee's parameters: `(i32, ptr)`.
#[tactic(auto, unfolding(crate::specs::CallsAt::types_at))]
fn types_at(alloc: Global, tokens: &mut Tokens) -> Result<Vec<Name>, ReaderError>
    ensures { Returns (λ x. (x.items, tokens.new)) result (types_at tokens.old) }
{
    expect(TokenKind::OpenParen, tokens)?;
    listed_types_at(alloc, tokens)
}

/// Reads an argument behind its type, and adds it.
#[tactic(auto, unfolding(crate::specs::CallsAt::argument_behind_at))]
fn argument_behind_into(
    alloc: Global,
    reg: Reg,
    arguments: &mut Vec<Argument>,
    tokens: &mut Tokens,
) -> Result<(), ReaderError>
    requires { IsReg reg }
    ensures { Returns (λ _. (arguments.new.items, tokens.new)) result (pushed_at arguments.old.items (argument_behind_at reg) tokens.old) }
{
    parameter_attributes_at(alloc, tokens)?;
    let operand = operand_at(alloc, reg, tokens)?;
    push(arguments, Argument { reg, operand })
}

/// Reads an argument of any type, `ptr noundef %p`, and adds it.
#[tactic(auto, unfolding(crate::specs::CallsAt::argument_at))]
fn argument_into(
    alloc: Global,
    arguments: &mut Vec<Argument>,
    tokens: &mut Tokens,
) -> Result<(), ReaderError>
    ensures { Returns (λ _. (arguments.new.items, tokens.new)) result (pushed_at arguments.old.items argument_at tokens.old) }
{
    let reg = reg_at(tokens)?;
    argument_behind_into(alloc, reg, arguments, tokens)
}

#[tactic(auto, unfolding(crate::specs::CallsAt::further_argument_at))]
fn further_argument_into(
    alloc: Global,
    arguments: &mut Vec<Argument>,
    tokens: &mut Tokens,
) -> Result<(), ReaderError>
    ensures { Returns (λ _. (arguments.new.items, tokens.new)) result (pushed_at arguments.old.items further_argument_at tokens.old) }
{
    expect(TokenKind::Comma, tokens)?;
    argument_into(alloc, arguments, tokens)
}

/// Reads arguments of any types, at least one, and adds them.
fn some_arguments_into(
    alloc: Global,
    arguments: &mut Vec<Argument>,
    tokens: &mut Tokens,
) -> Result<(), ReaderError>
    ensures { Returns (λ _. (arguments.new.items, tokens.new)) result (joined_at arguments.old.items some_arguments_at tokens.old) }
{
    argument_into(alloc, arguments, tokens)?;
    'each: while tokens.comes(TokenKind::Comma) {
        further_argument_into(alloc, arguments, tokens)?;
    }
    Ok(())
}

/// Reads arguments of any types, and the `)` behind them, and adds the arguments.
#[tactic(auto, unfolding(crate::specs::CallsAt::any_arguments_at), using(crate::proofs::Additions::joined_closed))]
fn any_arguments_into(
    alloc: Global,
    arguments: &mut Vec<Argument>,
    tokens: &mut Tokens,
) -> Result<(), ReaderError>
    ensures { Returns (λ _. (arguments.new.items, tokens.new)) result (joined_at arguments.old.items any_arguments_at tokens.old) }
{
    if tokens.comes_reg() {
        some_arguments_into(alloc, arguments, tokens)?;
        expect(TokenKind::CloseParen, tokens)
    } else {
        end_of_none_at(tokens)
    }
}

fn is_same_reg(left: Reg, right: Reg) -> bool
    ensures { result ≡ same_reg left right }
{
    match (left, right) {
        (Reg::Int(v), Reg::Int(w)) => v == w,
        (Reg::Ptr, Reg::Ptr) => true,
        _ => false,
    }
}

/// What a token means where the type that another writes must stand.
#[tactic(auto, unfolding(ir_parse_parts::specs::Rules::is_exact))]
fn type_again(written: &Token, t: &Token) -> Result<Reg, TokenFault>
    ensures exact { result ≡ is_exact tokens type_refusal REG (is_type (tok written.now)) reg_of (tok t.now) }
    ensures ranged { IfOk result IsReg }
{
    match t.kind {
        TokenKind::MemoryInteger | TokenKind::RegisterInteger | TokenKind::Ptr => {
            let reg = reg_of(t);
            if is_same_reg(reg_of(written), reg) {
                Ok(reg)
            } else {
                Err(type_refusal(t.kind))
            }
        }
        head => Err(type_refusal(head)),
    }
}

/// Takes the type that stands in a list of types.
fn type_again_at(written: &Name, tokens: &mut Tokens) -> Result<Reg, ReaderError>
    ensures exact { Returns (λ x. (x, tokens.new)) result (type_again_at written.now tokens.old) }
    ensures ranged { IfOk result IsReg }
{
    let token = written.token();
    let left = tokens.left();
    match tokens.take() {
        None => Err(ReaderError::Fault(Fault {
            left,
            kind: TokenFault::Syntax,
        })),
        Some(t) => meant(left, type_again(&token, &t)),
    }
}

/// Reads an argument of the type that is written, and adds it.
#[tactic(auto, unfolding(crate::specs::CallsAt::argument_of_at))]
fn argument_of_into(
    alloc: Global,
    written: &Name,
    arguments: &mut Vec<Argument>,
    tokens: &mut Tokens,
) -> Result<(), ReaderError>
    ensures { Returns (λ _. (arguments.new.items, tokens.new)) result (pushed_at arguments.old.items (argument_of_at written.now) tokens.old) }
{
    let reg = type_again_at(written, tokens)?;
    argument_behind_into(alloc, reg, arguments, tokens)
}

#[tactic(auto, unfolding(crate::specs::CallsAt::further_of_at))]
fn further_of_into(
    alloc: Global,
    written: &Name,
    arguments: &mut Vec<Argument>,
    tokens: &mut Tokens,
) -> Result<(), ReaderError>
    ensures { Returns (λ _. (arguments.new.items, tokens.new)) result (pushed_at arguments.old.items (further_of_at written.now) tokens.old) }
{
    expect(TokenKind::Comma, tokens)?;
    argument_of_into(alloc, written, arguments, tokens)
}

/// Reads an argument of each of these types, and adds them.
fn some_of_into(
    alloc: Global,
    first: &Name,
    further: &[Name],
    arguments: &mut Vec<Argument>,
    tokens: &mut Tokens,
) -> Result<(), ReaderError>
    ensures { Returns (λ _. (arguments.new.items, tokens.new)) result (joined_at arguments.old.items (some_of_at first.now further.now) tokens.old) }
{
    argument_of_into(alloc, first, arguments, tokens)?;
    'each: for written in further {
        further_of_into(alloc, written, arguments, tokens)?;
    }
    Ok(())
}

/// Reads an argument of each of these types, and the `)` behind them, and adds the arguments.
#[tactic(auto, using(crate::proofs::Additions::joined_closed))]
fn arguments_of_into(
    alloc: Global,
    types: &[Name],
    arguments: &mut Vec<Argument>,
    tokens: &mut Tokens,
) -> Result<(), ReaderError>
    ensures { Returns (λ _. (arguments.new.items, tokens.new)) result (joined_at arguments.old.items (arguments_of_at types.now) tokens.old) }
{
    match types {
        [] => expect(TokenKind::CloseParen, tokens),
        [first, further @ ..] => {
            some_of_into(alloc, first, further, arguments, tokens)?;
            expect(TokenKind::CloseParen, tokens)
        }
    }
}

/// Reads the arguments of a call, of the types that are written, where they are, and adds them.
fn arguments_into(
    alloc: Global,
    types: &Option<Rows<Name>>,
    arguments: &mut Vec<Argument>,
    tokens: &mut Tokens,
) -> Result<(), ReaderError>
    ensures { Returns (λ _. (arguments.new.items, tokens.new)) result (joined_at arguments.old.items (arguments_at types.now) tokens.old) }
{
    match types {
        None => any_arguments_into(alloc, arguments, tokens),
        Some(written) => arguments_of_into(alloc, written.as_slice(), arguments, tokens),
    }
}

#[tactic(auto, unfolding(crate::specs::CallsAt::called_value_at))]
fn called_value_at(alloc: Global, tokens: &mut Tokens) -> Result<Option<Operand>, ReaderError>
    ensures { Returns (λ x. (x, tokens.new)) result (called_value_at tokens.old) }
{
    let value = operand_at(alloc, Reg::Ptr, tokens)?;
    done(Some(value))
}

/// What a token means as the callee of a call that has a name and gives nothing.
#[tactic(auto, unfolding(ir_parse_parts::specs::Rules::is_valued))]
fn unmarked_means(alloc: Global, t: &Token) -> Result<Result<Operand, TokenFault>, AllocError>
    ensures { IfOk result (λ x. x ≡ is_valued tokens marker_refusal (classes_of Ptr) (operand_of Ptr) (tok t.now)) }
{
    if t.kind.is(TokenKind::LifetimeMarker) {
        Ok(Err(TokenFault::Syntax))
    } else {
        operand_means(alloc, Reg::Ptr, t)
    }
}

fn unmarked_at(alloc: Global, tokens: &mut Tokens) -> Result<Operand, ReaderError>
    ensures { Returns (λ x. (x, tokens.new)) result (unmarked_at tokens.old) }
{
    let left = tokens.left();
    match tokens.take() {
        None => Err(ReaderError::Fault(Fault {
            left,
            kind: TokenFault::Syntax,
        })),
        Some(t) => meant(left, unmarked_means(alloc, &t)?),
    }
}

#[tactic(auto, unfolding(crate::specs::CallsAt::unmarked_value_at))]
fn unmarked_value_at(alloc: Global, tokens: &mut Tokens) -> Result<Option<Operand>, ReaderError>
    ensures { Returns (λ x. (x, tokens.new)) result (unmarked_value_at tokens.old) }
{
    if tokens.comes(TokenKind::GetElementPtr) {
        let value = address_at(alloc, tokens)?;
        done(Some(value))
    } else {
        let value = unmarked_at(alloc, tokens)?;
        done(Some(value))
    }
}

/// Reads what is called: `None` for a lifetime marker, whose call is dropped.
#[tactic(auto, unfolding(crate::specs::CallsAt::marker_at))]
fn callee_at(
    alloc: Global,
    named: bool,
    reg: Option<Reg>,
    tokens: &mut Tokens,
) -> Result<Option<Operand>, ReaderError>
    ensures { Returns (λ x. (x, tokens.new)) result (callee_at named reg tokens.old) }
{
    if reg.is_some() {
        called_value_at(alloc, tokens)
    } else if named {
        unmarked_value_at(alloc, tokens)
    } else if tokens.comes(TokenKind::LifetimeMarker) {
        expect(TokenKind::LifetimeMarker, tokens)?;
        Ok(None)
    } else {
        called_value_at(alloc, tokens)
    }
}

/// Reads the types of the callee's parameters, where they are written.
fn maybe_types_at(alloc: Global, tokens: &mut Tokens) -> Result<Option<Rows<Name>>, ReaderError>
    ensures { Returns (λ x. (x, tokens.new)) result (maybe_types_at tokens.old) }
{
    if tokens.comes(TokenKind::OpenParen) {
        let types = types_at(alloc, tokens)?;
        Ok(Some(Rows::of(types)))
    } else {
        Ok(None)
    }
}

/// Reads the arguments of a call: of the types that are written, where they are.
#[tactic(auto, using(crate::proofs::Additions::joined_alone))]
fn arguments_at(
    alloc: Global,
    types: &Option<Rows<Name>>,
    tokens: &mut Tokens,
) -> Result<Vec<Argument>, ReaderError>
    ensures { Returns (λ x. (x.items, tokens.new)) result (arguments_at types.now tokens.old) }
{
    let mut arguments = Vec::new(alloc);
    arguments_into(alloc, types, &mut arguments, tokens)?;
    Ok(arguments)
}

/// Adds a call, unless it is dropped.
fn put_call(
    reg: Option<Reg>,
    callee: Option<Operand>,
    arguments: Vec<Argument>,
    list: &mut Listing,
) -> Result<(), ReaderError>
    ensures put { OnOk result (list.new.lines.items ≡ kept_in list.old (called reg callee arguments.items)) }
    ensures memory { IfErr result (λ e. e ≡ NoMemory) }
{
    match callee {
        None => Ok(()),
        Some(callee) => list.put(Instr::Call {
            result: reg,
            callee,
            arguments: Rows::of(arguments),
        }),
    }
}

/// Adds a call, and reads what follows its arguments.
fn called_into(
    alloc: Global,
    reg: Option<Reg>,
    callee: Option<Operand>,
    arguments: Vec<Argument>,
    list: &mut Listing,
    tokens: &mut Tokens,
) -> Result<(), ReaderError>
    ensures { Returns (λ _. (list.new.lines.items, tokens.new)) result (listed_at list.old (called_at reg callee arguments.items) tokens.old) }
{
    put_call(reg, callee, arguments, list)?;
    call_attributes_at(alloc, tokens)?;
    attachments_at(alloc, tokens)
}

/// Reads what follows the result of a call: arguments of the types that are written, where they are.
fn calling_of_into(
    alloc: Global,
    named: bool,
    reg: Option<Reg>,
    list: &mut Listing,
    tokens: &mut Tokens,
) -> Result<(), ReaderError>
    ensures { Returns (λ _. (list.new.lines.items, tokens.new)) result (listed_at list.old (calling_of_at named reg) tokens.old) }
{
    let types = maybe_types_at(alloc, tokens)?;
    let callee = callee_at(alloc, named, reg, tokens)?;
    expect(TokenKind::OpenParen, tokens)?;
    let arguments = arguments_at(alloc, &types, tokens)?;
    called_into(alloc, reg, callee, arguments, list, tokens)
}

/// Reads what follows `call`, with the name of a result before it or not. Where the callee is a lifetime
/// marker, the call is dropped.
#[tactic(auto, unfolding(crate::specs::CallsAt::calling_at))]
pub fn calling_into(
    alloc: Global,
    named: bool,
    list: &mut Listing,
    tokens: &mut Tokens,
) -> Result<(), ReaderError>
    ensures { Returns (λ _. (list.new.lines.items, tokens.new)) result (listed_at list.old (calling_at named) tokens.old) }
{
    conventions_at(alloc, tokens)?;
    let result = result_at(tokens)?;
    calling_of_into(alloc, named, result, list, tokens)
}

/// Reads what follows `tail` or `notail`.
#[tactic(auto, unfolding(crate::specs::CallsAt::tail_calling_at))]
pub fn tail_calling_into(
    alloc: Global,
    named: bool,
    list: &mut Listing,
    tokens: &mut Tokens,
) -> Result<(), ReaderError>
    ensures { Returns (λ _. (list.new.lines.items, tokens.new)) result (listed_at list.old (tail_calling_at named) tokens.old) }
{
    expect(TokenKind::Call, tokens)?;
    calling_into(alloc, named, list, tokens)
}
