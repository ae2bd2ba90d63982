//! Reads what stands before the body of a function: linkage, result, name and parameters (LangRef,
//! "Functions", "Linkage Types").

ghost use Rattle.std.specs.Prelude.{◌≡◌, IfOk};
ghost use Rattle.ir_lex.specs.TokenKinds.{number};
ghost use Rattle.ir_lex.specs.Tok.{tok};
ghost use Rattle.ir_parse_parts.specs.Alphabet.{contains, among};
ghost use Rattle.ir_parse_parts.specs.Readers.{Returns, next_is};
ghost use Rattle.ir_parse_parts.specs.Rules.{is_valued};
ghost use Rattle.ir_parse_parts.specs.Classes.{tokens, one_of_at};
ghost use Rattle.ir_parse_heads.specs.FunctionHeads.{linkages_of, linkage_by, linkage_word, QUALIFIERS, nothing_of, with_linkage, is_local, names_of, name_refusal, head_of};
ghost use Rattle.ir_parse_heads.specs.FunctionHeadsAt.{LEADING, QUALIFYING, linking_at, qualifier_at, qualifying_at, leading_at, prefix_at, function_name_at, param_at, further_param_at, params_behind_at, some_params_at, end_of_none_at, listed_params_at, params_at, head_at};
ghost use Rattle.ir_parse_parts.specs.Operands.{global_named};

use crate::attributes::{parameter_attribute_at, parameter_attributes_at};
use ir_lex::{Token, TokenKind};
use ir_parse_parts::{
    Fault, FunctionHeader, Name, Param, ReaderError, TokenFault, Tokens, expect, global_named,
    local_at, refusal, reg_at, result_at, type_refusal,
};
use ir_tree::{Linkage, Rows};
use std::alloc::{AllocError, Global};

/// Whether a function has a body.
#[derive(Clone, Copy)]
pub enum Role {
    Declaration,
    Definition,
}

/// What a word before the result says: the linkage, where it is one, and whether a linkage has stood
/// by now.
#[derive(Clone, Copy)]
struct Leading {
    linkage: Option<Linkage>,
    linked: bool,
}

/// Whether a word of this kind is a linkage that such a function may have.
fn is_linkage_of(role: Role, head: TokenKind) -> bool
    ensures { result ≡ contains (linkages_of role) (number head) }
{
    match role {
        Role::Declaration => matches!(head, TokenKind::External),
        Role::Definition => matches!(
            head,
            TokenKind::Private
                | TokenKind::Internal
                | TokenKind::External
                | TokenKind::Linkonce
                | TokenKind::LinkonceOdr
                | TokenKind::Weak
                | TokenKind::WeakOdr
                | TokenKind::AvailableExternally
        ),
    }
}

pub fn linkage_by(head: TokenKind) -> Linkage
    ensures { result ≡ linkage_by head }
{
    match head {
        TokenKind::Private => Linkage::Private,
        TokenKind::Internal => Linkage::Internal,
        TokenKind::Linkonce => Linkage::Linkonce,
        TokenKind::LinkonceOdr => Linkage::LinkonceOdr,
        TokenKind::Weak => Linkage::Weak,
        TokenKind::WeakOdr => Linkage::WeakOdr,
        TokenKind::AvailableExternally => Linkage::AvailableExternally,
        _ => Linkage::External,
    }
}

/// Takes a linkage that such a function may have.
#[tactic(auto, unfolding(ir_parse_parts::specs::Rules::is_among))]
fn linkage_at(role: Role, tokens: &mut Tokens) -> Result<Linkage, ReaderError>
    ensures { Returns (λ x. (x, tokens.new)) result (one_of_at (linkages_of role) linkage_word tokens.old) }
{
    let left = tokens.left();
    match tokens.take() {
        None => Err(ReaderError::Fault(Fault {
            left,
            kind: TokenFault::Syntax,
        })),
        Some(t) => {
            if is_linkage_of(role, t.kind) {
                Ok(linkage_by(t.kind))
            } else {
                Err(ReaderError::Fault(Fault {
                    left,
                    kind: refusal(t.kind),
                }))
            }
        }
    }
}

/// Takes a word of visibility, of addresses or of a calling convention.
#[tactic(auto, unfolding(ir_parse_parts::specs::Rules::is_among))]
pub fn qualifier_word_at(tokens: &mut Tokens) -> Result<(), ReaderError>
    ensures { Returns (λ x. (tt, tokens.new)) result (one_of_at QUALIFIERS nothing_of tokens.old) }
{
    let left = tokens.left();
    match tokens.take() {
        None => Err(ReaderError::Fault(Fault {
            left,
            kind: TokenFault::Syntax,
        })),
        Some(t) => {
            if is_qualifier(t.kind) {
                Ok(())
            } else {
                Err(ReaderError::Fault(Fault {
                    left,
                    kind: refusal(t.kind),
                }))
            }
        }
    }
}

pub fn is_qualifier(head: TokenKind) -> bool
    ensures { result ≡ contains QUALIFIERS (number head) }
{
    matches!(
        head,
        TokenKind::Visibility | TokenKind::UnnamedAddr | TokenKind::CallingConvention
    )
}

/// Whether a word of visibility, of addresses or of a calling convention comes.
pub fn comes_qualifier(rest: &Tokens) -> bool
    ensures { result ≡ next_is (among tokens QUALIFIERS) rest.now }
{
    match rest.kind() {
        Some(head) => matches!(
            head,
            TokenKind::Visibility | TokenKind::UnnamedAddr | TokenKind::CallingConvention
        ),
        None => false,
    }
}

#[tactic(auto, unfolding(crate::specs::FunctionHeadsAt::qualifier_at))]
fn qualifier_at(alloc: Global, tokens: &mut Tokens) -> Result<(), ReaderError>
    ensures { Returns (λ x. (tt, tokens.new)) result (qualifier_at tokens.old) }
{
    if comes_qualifier(tokens) {
        qualifier_word_at(tokens)
    } else {
        parameter_attribute_at(alloc, tokens)
    }
}

fn begins_qualifying(head: TokenKind) -> bool
    ensures { result ≡ contains QUALIFYING (number head) }
{
    matches!(
        head,
        TokenKind::Visibility
            | TokenKind::UnnamedAddr
            | TokenKind::CallingConvention
            | TokenKind::ParameterWord
            | TokenKind::ParameterGroup
            | TokenKind::Align
    )
}

fn begins_leading(role: Role, linked: bool, head: TokenKind) -> bool
    ensures { result ≡ contains (LEADING role linked) (number head) }
{
    if linked {
        begins_qualifying(head)
    } else {
        is_linkage_of(role, head) || begins_qualifying(head)
    }
}

/// Whether a word comes that may stand before the result.
fn comes_leading(role: Role, linked: bool, rest: &Tokens) -> bool
    ensures { result ≡ next_is (among tokens (LEADING role linked)) rest.now }
{
    match rest.kind() {
        Some(head) => begins_leading(role, linked, head),
        None => false,
    }
}

/// Whether a linkage comes that such a function may have.
fn comes_linkage(role: Role, rest: &Tokens) -> bool
    ensures { result ≡ next_is (among tokens (linkages_of role)) rest.now }
{
    match rest.kind() {
        Some(head) => is_linkage_of(role, head),
        None => false,
    }
}

#[tactic(auto, unfolding(crate::specs::FunctionHeadsAt::linking_at, crate::specs::FunctionHeadsAt::qualifying_at))]
fn leading_at(
    alloc: Global,
    role: Role,
    linked: bool,
    tokens: &mut Tokens,
) -> Result<Leading, ReaderError>
    ensures { Returns (λ x. ((x.linkage, x.linked), tokens.new)) result (leading_at role linked tokens.old) }
{
    if linked {
        qualifier_at(alloc, tokens)?;
        return Ok(Leading {
            linkage: None,
            linked: true,
        });
    }
    if comes_linkage(role, tokens) {
        let linkage = linkage_at(role, tokens)?;
        Ok(Leading {
            linkage: Some(linkage),
            linked: true,
        })
    } else {
        qualifier_at(alloc, tokens)?;
        Ok(Leading {
            linkage: None,
            linked: false,
        })
    }
}

pub fn with_linkage(linkage: Linkage, written: Option<Linkage>) -> Linkage
    ensures { result ≡ with_linkage linkage written }
{
    match written {
        None => linkage,
        Some(written) => written,
    }
}

/// Reads what stands before the result: the linkage that is written there, or `External`.
#[tactic(auto, unfolding(crate::specs::FunctionHeadsAt::prefix_at))]
fn prefix_at(alloc: Global, role: Role, tokens: &mut Tokens) -> Result<Linkage, ReaderError>
    ensures { Returns (λ x. (x, tokens.new)) result (prefix_at role tokens.old) }
{
    let mut linkage = Linkage::External;
    let mut linked = false;
    'each: while comes_leading(role, linked, tokens) {
        let leading = leading_at(alloc, role, linked, tokens)?;
        linked = leading.linked;
        linkage = with_linkage(linkage, leading.linkage);
    }
    Ok(linkage)
}

pub fn is_local(linkage: Linkage) -> bool
    ensures { result ≡ is_local linkage }
{
    matches!(linkage, Linkage::Private | Linkage::Internal)
}

/// Whether a token of this kind names such a function.
fn is_name_of(role: Role, linkage: Linkage, head: TokenKind) -> bool
    ensures { result ≡ contains (names_of role linkage) (number head) }
{
    match role {
        Role::Declaration => matches!(head, TokenKind::LifetimeMarker | TokenKind::Global),
        Role::Definition => {
            if is_local(linkage) {
                matches!(
                    head,
                    TokenKind::NumberedGlobal | TokenKind::NumberedDefinition | TokenKind::Global
                )
            } else {
                matches!(head, TokenKind::Global)
            }
        }
    }
}

/// Why a token can't name a function.
pub fn name_refusal(head: TokenKind) -> TokenFault
    ensures { result ≡ name_refusal (number head) }
{
    match head {
        TokenKind::NumberedGlobal | TokenKind::NumberedDefinition => TokenFault::Profile,
        _ => refusal(head),
    }
}

/// What a token means where the name of such a function stands.
#[tactic(auto, unfolding(ir_parse_parts::specs::Rules::is_valued))]
fn name_means(
    alloc: Global,
    role: Role,
    linkage: Linkage,
    t: &Token,
) -> Result<Result<Name, TokenFault>, AllocError>
    ensures { IfOk result (λ x. x ≡ is_valued tokens name_refusal (names_of role linkage) global_named (tok t.now)) }
{
    if is_name_of(role, linkage, t.kind) {
        match global_named(alloc, t)? {
            None => Ok(Err(TokenFault::Number)),
            Some(name) => Ok(Ok(name)),
        }
    } else {
        Ok(Err(name_refusal(t.kind)))
    }
}

/// Takes the name of a function.
fn function_name_at(
    alloc: Global,
    role: Role,
    linkage: Linkage,
    tokens: &mut Tokens,
) -> Result<Name, ReaderError>
    ensures { Returns (λ x. (x, tokens.new)) result (function_name_at role linkage tokens.old) }
{
    let left = tokens.left();
    match tokens.take() {
        None => Err(ReaderError::Fault(Fault {
            left,
            kind: TokenFault::Syntax,
        })),
        Some(t) => match name_means(alloc, role, linkage, &t)? {
            Ok(x) => Ok(x),
            Err(kind) => Err(ReaderError::Fault(Fault { left, kind })),
        },
    }
}

/// Reads a parameter: `ptr noundef %p`.
#[tactic(auto, unfolding(crate::specs::FunctionHeadsAt::param_at))]
fn param_at(alloc: Global, tokens: &mut Tokens) -> Result<Param, ReaderError>
    ensures { Returns (λ x. (x, tokens.new)) result (param_at tokens.old) }
{
    let reg = reg_at(tokens)?;
    parameter_attributes_at(alloc, tokens)?;
    if tokens.comes(TokenKind::Local) {
        let name = local_at(alloc, tokens)?;
        Ok(Param {
            reg,
            name: Some(name),
        })
    } else {
        Ok(Param { reg, name: None })
    }
}

#[tactic(auto, unfolding(crate::specs::FunctionHeadsAt::further_param_at))]
fn further_param_at(alloc: Global, tokens: &mut Tokens) -> Result<Param, ReaderError>
    ensures { Returns (λ x. (x, tokens.new)) result (further_param_at tokens.old) }
{
    expect(TokenKind::Comma, tokens)?;
    param_at(alloc, tokens)
}

/// Reads the parameters behind some, of which there may be `room`.
#[tactic(auto, unfolding(crate::specs::FunctionHeadsAt::params_behind_at))]
fn params_behind_at(
    alloc: Global,
    room: usize,
    front: Vec<Param>,
    tokens: &mut Tokens,
) -> Result<Vec<Param>, ReaderError>
    ensures { Returns (λ x. (x.items, tokens.new)) result (params_behind_at room front.items tokens.old) }
{
    let mut params = front;
    let mut left = room;
    'each: while tokens.comes(TokenKind::Comma) {
        if left == 0 {
            return Err(ReaderError::Fault(Fault {
                left: tokens.left(),
                kind: TokenFault::Limit,
            }));
        }
        let param = further_param_at(alloc, tokens)?;
        params.push(param)?;
        left -= 1;
    }
    Ok(params)
}

#[tactic(auto, unfolding(crate::specs::FunctionHeadsAt::some_params_at))]
fn some_params_at(
    alloc: Global,
    room: usize,
    tokens: &mut Tokens,
) -> Result<Vec<Param>, ReaderError>
    ensures { Returns (λ x. (x.items, tokens.new)) result (some_params_at room tokens.old) }
{
    let first = param_at(alloc, tokens)?;
    let mut params = Vec::new(alloc);
    params.push(first)?;
    params_behind_at(alloc, room, params, tokens)
}

/// Takes the `)` behind a `(`, where a type might have stood.
#[tactic(auto, unfolding(ir_parse_parts::specs::Rules::is_class))]
pub fn end_of_none_at(tokens: &mut Tokens) -> Result<(), ReaderError>
    ensures { Returns (λ x. (tt, tokens.new)) result (end_of_none_at tokens.old) }
{
    let left = tokens.left();
    match tokens.take() {
        None => Err(ReaderError::Fault(Fault {
            left,
            kind: TokenFault::Syntax,
        })),
        Some(t) => {
            if t.kind.is(TokenKind::CloseParen) {
                Ok(())
            } else {
                Err(ReaderError::Fault(Fault {
                    left,
                    kind: type_refusal(t.kind),
                }))
            }
        }
    }
}

#[tactic(auto, unfolding(crate::specs::FunctionHeadsAt::listed_params_at))]
fn listed_params_at(
    alloc: Global,
    room: usize,
    tokens: &mut Tokens,
) -> Result<Vec<Param>, ReaderError>
    ensures { Returns (λ x. (x.items, tokens.new)) result (listed_params_at room tokens.old) }
{
    if tokens.comes_reg() {
        let params = some_params_at(alloc, room, tokens)?;
        expect(TokenKind::CloseParen, tokens)?;
        Ok(params)
    } else {
        end_of_none_at(tokens)?;
        Ok(Vec::new(alloc))
    }
}

#[tactic(auto, unfolding(crate::specs::FunctionHeadsAt::params_at))]
fn params_at(alloc: Global, room: usize, tokens: &mut Tokens) -> Result<Vec<Param>, ReaderError>
    ensures { Returns (λ x. (x.items, tokens.new)) result (params_at room tokens.old) }
{
    expect(TokenKind::OpenParen, tokens)?;
    listed_params_at(alloc, room, tokens)
}

/// Reads a head up to the end of its parameters, of which `room` may stand behind the first:
/// `internal noundef i32 @f(i32 %x, ptr)`.
#[tactic(auto, unfolding(crate::specs::FunctionHeadsAt::head_at))]
pub fn head_at(
    alloc: Global,
    role: Role,
    room: usize,
    tokens: &mut Tokens,
) -> Result<FunctionHeader, ReaderError>
    ensures { Returns (λ x. (x, tokens.new)) result (head_at role room tokens.old) }
{
    let linkage = prefix_at(alloc, role, tokens)?;
    let result = result_at(tokens)?;
    let name = function_name_at(alloc, role, linkage, tokens)?;
    let params = params_at(alloc, room, tokens)?;
    Ok(FunctionHeader {
        linkage,
        result,
        name,
        params: Rows::of(params),
        noinline: false,
        optnone: false,
        groups: Rows::new(alloc),
    })
}
