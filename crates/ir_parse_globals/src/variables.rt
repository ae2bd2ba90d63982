//! Reads global variables (LangRef, "Global Variables", "Linkage Types", "Comdats").

ghost use Rattle.std.specs.Prelude.{◌≡◌, IfSome, IfOk};
ghost use Rattle.ir_lex.specs.TokenKinds.{number};
ghost use Rattle.ir_lex.specs.Tok.{tok};
ghost use Rattle.ir_parse_parts.specs.Alphabet.{contains, among};
ghost use Rattle.ir_parse_parts.specs.Readers.{Returns, done, follow, next_is};
ghost use Rattle.ir_parse_parts.specs.Rules.{is_valued};
ghost use Rattle.ir_parse_parts.specs.Classes.{tokens, one_of_at};
ghost use Rattle.ir_parse_heads.specs.FunctionHeads.{LINKAGES, linkage_word, name_refusal};
ghost use Rattle.ir_parse_parts.specs.declared.raw.Item.TheVariants as items;
ghost use Rattle.ir_parse_parts.specs.Operands.{IsReg, global_named};
ghost use Rattle.ir_parse_operands.specs.Adding.{pushed_at};
ghost use Rattle.ir_parse_operands.specs.ShapeFormsAt.{memory_shape_at};
ghost use Rattle.ir_parse_globals.specs.declared.variables.Body.{Body};
ghost use Rattle.ir_parse_globals.specs.Initialisers.{scalar_of};
ghost use Rattle.ir_parse_globals.specs.Variables.{KINDS, NAMES, is_constant, is_declared, variable, with_align};
ghost use Rattle.ir_parse_globals.specs.VariablesAt.{variable_name_at, linkage_at, qualifiers_at, linked_at, value_at, comdat_name_at, in_comdat_at, aligned_at, marked_at, further_at, headed_at, tail_at, behind_kind_at, variable_line_at};

use crate::initialisers::{initialiser_at, scalar_of, shape_at};
use ir_lex::{Token, TokenKind};
use ir_parse_heads::{comes_qualifier, linkage_by, name_refusal, qualifier_word_at, with_linkage};
use ir_parse_operands::push_item;
use ir_parse_parts::{
    Fault, Init, Item, Name, ReaderError, TokenFault, Tokens, Typed, Variable, alignment_at,
    attached_at, done, expect, global_named, refusal,
};
use ir_tree::{Linkage, Reg};
use std::alloc::{AllocError, Global};

/// What a token means where the name of a variable stands.
#[tactic(auto, unfolding(ir_parse_parts::specs::Rules::is_valued))]
fn name_means(alloc: Global, t: &Token) -> Result<Result<Name, TokenFault>, AllocError>
    ensures { IfOk result (λ x. x ≡ is_valued tokens name_refusal NAMES global_named (tok t.now)) }
{
    match t.kind {
        TokenKind::Global | TokenKind::NumberedDefinition => match global_named(alloc, t)? {
            None => Ok(Err(TokenFault::Number)),
            Some(name) => Ok(Ok(name)),
        },
        head => Ok(Err(name_refusal(head))),
    }
}

/// Takes the name of a variable. One that is a number is taken where `= private` or `= internal`
/// stands behind it.
fn variable_name_at(alloc: Global, tokens: &mut Tokens) -> Result<Name, ReaderError>
    ensures { Returns (λ x. (x, tokens.new)) result (variable_name_at tokens.old) }
{
    let left = tokens.left();
    match tokens.take() {
        None => Err(ReaderError::Fault(Fault {
            left,
            kind: TokenFault::Syntax,
        })),
        Some(t) => match name_means(alloc, &t)? {
            Ok(x) => Ok(x),
            Err(kind) => Err(ReaderError::Fault(Fault { left, kind })),
        },
    }
}

fn is_linkage(head: TokenKind) -> bool
    ensures { result ≡ contains LINKAGES (number head) }
{
    matches!(
        head,
        TokenKind::Private
            | TokenKind::Internal
            | TokenKind::External
            | TokenKind::Linkonce
            | TokenKind::LinkonceOdr
            | TokenKind::Weak
            | TokenKind::WeakOdr
            | TokenKind::AvailableExternally
    )
}

/// Whether a linkage comes.
fn comes_linkage(rest: &Tokens) -> bool
    ensures { result ≡ next_is (among tokens LINKAGES) rest.now }
{
    match rest.kind() {
        Some(head) => is_linkage(head),
        None => false,
    }
}

#[tactic(auto, unfolding(ir_parse_parts::specs::Rules::is_among))]
fn linkage_word_at(tokens: &mut Tokens) -> Result<Linkage, ReaderError>
    ensures { Returns (λ x. (x, tokens.new)) result (one_of_at LINKAGES linkage_word tokens.old) }
{
    let left = tokens.left();
    match tokens.take() {
        None => Err(ReaderError::Fault(Fault {
            left,
            kind: TokenFault::Syntax,
        })),
        Some(t) => {
            if is_linkage(t.kind) {
                Ok(linkage_by(t.kind))
            } else {
                Err(ReaderError::Fault(Fault {
                    left,
                    kind: refusal(t.kind),
                }))
            }
        }
    }
}

/// Takes a linkage, where one stands.
fn linkage_at(tokens: &mut Tokens) -> Result<Option<Linkage>, ReaderError>
    ensures { Returns (λ x. (x, tokens.new)) result (linkage_at tokens.old) }
{
    if comes_linkage(tokens) {
        let linkage = linkage_word_at(tokens)?;
        Ok(Some(linkage))
    } else {
        Ok(None)
    }
}

/// Takes the words of visibility, of addresses and of calling conventions, and drops them.
#[tactic(auto, unfolding(crate::specs::VariablesAt::qualifiers_at))]
fn qualifiers_at(tokens: &mut Tokens) -> Result<(), ReaderError>
    ensures { Returns (λ x. (tt, tokens.new)) result (qualifiers_at tokens.old) }
{
    'each: while comes_qualifier(tokens) {
        qualifier_word_at(tokens)?;
    }
    Ok(())
}

/// Reads what stands before `global` or `constant`: the linkage that is written.
#[tactic(auto, unfolding(crate::specs::VariablesAt::linked_at))]
fn linked_at(tokens: &mut Tokens) -> Result<Option<Linkage>, ReaderError>
    ensures { Returns (λ x. (x, tokens.new)) result (linked_at tokens.old) }
{
    let linkage = linkage_at(tokens)?;
    qualifiers_at(tokens)?;
    Ok(linkage)
}

/// Takes `global` or `constant`; the answer is whether it is `constant`.
#[tactic(auto, unfolding(ir_parse_parts::specs::Rules::is_among))]
fn kind_at(tokens: &mut Tokens) -> Result<bool, ReaderError>
    ensures { Returns (λ x. (x, tokens.new)) result (one_of_at KINDS is_constant tokens.old) }
{
    let left = tokens.left();
    match tokens.take() {
        None => Err(ReaderError::Fault(Fault {
            left,
            kind: TokenFault::Syntax,
        })),
        Some(t) => match t.kind {
            TokenKind::GlobalVariable => Ok(false),
            TokenKind::Constant => Ok(true),
            head => Err(ReaderError::Fault(Fault {
                left,
                kind: refusal(head),
            })),
        },
    }
}

/// Whether `external` is written, which is said of a variable that is only declared.
fn is_declared(linkage: Option<Linkage>) -> bool
    ensures { result ≡ is_declared linkage }
{
    matches!(linkage, Some(Linkage::External))
}

/// Reads an initialiser, unless the variable is only declared.
fn value_at(
    alloc: Global,
    declared: bool,
    scalar: Option<Reg>,
    tokens: &mut Tokens,
) -> Result<Option<Init>, ReaderError>
    requires { IfSome scalar IsReg }
    ensures { Returns (λ x. (x, tokens.new)) result (value_at declared scalar tokens.old) }
{
    if declared {
        return Ok(None);
    }
    let init = initialiser_at(alloc, scalar, tokens)?;
    done(Some(init))
}

/// Takes the name of a comdat in brackets.
#[tactic(auto, unfolding(crate::specs::VariablesAt::comdat_name_at))]
fn comdat_name_at(tokens: &mut Tokens) -> Result<(), ReaderError>
    ensures { Returns (λ x. (tt, tokens.new)) result (comdat_name_at tokens.old) }
{
    expect(TokenKind::OpenParen, tokens)?;
    expect(TokenKind::ComdatName, tokens)?;
    expect(TokenKind::CloseParen, tokens)
}

/// Reads `comdat [(Comdat)]`, and drops it.
#[tactic(auto, unfolding(crate::specs::VariablesAt::in_comdat_at))]
fn in_comdat_at(tokens: &mut Tokens) -> Result<Option<u64>, ReaderError>
    ensures { Returns (λ x. (x, tokens.new)) result (in_comdat_at tokens.old) }
{
    expect(TokenKind::Comdat, tokens)?;
    if tokens.comes(TokenKind::OpenParen) {
        comdat_name_at(tokens)?;
    }
    Ok(None)
}

/// Reads `align N`.
#[tactic(auto, unfolding(crate::specs::VariablesAt::aligned_at))]
fn aligned_at(tokens: &mut Tokens) -> Result<Option<u64>, ReaderError>
    ensures { Returns (λ x. (x, tokens.new)) result (aligned_at tokens.old) }
{
    expect(TokenKind::Align, tokens)?;
    let align = alignment_at(tokens)?;
    Ok(Some(align))
}

/// Reads what follows the initialiser behind a comma: the alignment, where it is one.
#[tactic(auto, unfolding(crate::specs::VariablesAt::further_at, crate::specs::VariablesAt::marked_at))]
fn further_at(alloc: Global, tokens: &mut Tokens) -> Result<Option<u64>, ReaderError>
    ensures { Returns (λ x. (x, tokens.new)) result (further_at tokens.old) }
{
    expect(TokenKind::Comma, tokens)?;
    if tokens.comes(TokenKind::Comdat) {
        in_comdat_at(tokens)
    } else if tokens.comes(TokenKind::Align) {
        aligned_at(tokens)
    } else {
        attached_at(alloc, tokens)?;
        Ok(None)
    }
}

/// The last of two alignments that is written.
fn with_align(align: Option<u64>, last: Option<u64>) -> Option<u64>
    ensures { result ≡ with_align align last }
{
    match last {
        None => align,
        Some(last) => Some(last),
    }
}

/// Reads all that follows the initialiser: the last alignment, where one is written.
#[tactic(auto, unfolding(crate::specs::VariablesAt::tail_at))]
fn tail_at(alloc: Global, tokens: &mut Tokens) -> Result<Option<u64>, ReaderError>
    ensures { Returns (λ x. (x, tokens.new)) result (tail_at tokens.old) }
{
    let mut align = None;
    'each: while tokens.comes(TokenKind::Comma) {
        let further = further_at(alloc, tokens)?;
        align = with_align(align, further);
    }
    Ok(align)
}

/// What stands before the shape of a variable: its name, the linkage that is written, and whether it is
/// constant.
#[derive(Drop)]
struct Headed {
    name: Name,
    linkage: Option<Linkage>,
    constant: bool,
}

/// Reads what stands before the shape of a variable.
fn headed_at(alloc: Global, tokens: &mut Tokens) -> Result<Headed, ReaderError>
    ensures { Returns (λ x. ((x.name, (x.linkage, x.constant)), tokens.new)) result (headed_at tokens.old) }
{
    let name = variable_name_at(alloc, tokens)?;
    expect(TokenKind::Equals, tokens)?;
    let linkage = linked_at(tokens)?;
    let constant = kind_at(tokens)?;
    Ok(Headed {
        name,
        linkage,
        constant,
    })
}

/// The variable that is headed so, with this shape, initialiser and alignment.
fn variable_of(headed: Headed, typed: Typed, init: Option<Init>, align: Option<u64>) -> Variable
    ensures { items.Variable result ≡ variable headed.name headed.linkage headed.constant typed init align }
{
    let line = headed.name.line();
    Variable {
        name: headed.name,
        linkage: with_linkage(Linkage::External, headed.linkage),
        constant: headed.constant,
        typed,
        init,
        align,
        line,
    }
}

/// What stands behind `global` or `constant`: the shape, the initialiser and the alignment, where they are
/// written.
#[derive(Drop)]
struct Body {
    typed: Typed,
    init: Option<Init>,
    align: Option<u64>,
}

/// Reads what stands behind `global` or `constant`, for a variable of this linkage.
fn body_at(
    alloc: Global,
    linkage: Option<Linkage>,
    tokens: &mut Tokens,
) -> Result<Body, ReaderError>
    ensures { Returns (λ x. (x, tokens.new)) result (follow {B = Body} (memory_shape_at tokens.old) (λ typed behind. follow (value_at (is_declared linkage) (scalar_of typed.shape) behind) (λ init after. follow (tail_at after) (λ align. done (record { typed = typed; init = init; align = align }))))) }
{
    let typed = shape_at(alloc, tokens)?;
    let init = value_at(alloc, is_declared(linkage), scalar_of(&typed.shape), tokens)?;
    let align = tail_at(alloc, tokens)?;
    Ok(Body { typed, init, align })
}

/// Reads what stands behind `global` or `constant`: the rest of the variable that is headed so.
fn behind_kind_at(
    alloc: Global,
    headed: Headed,
    tokens: &mut Tokens,
) -> Result<Variable, ReaderError>
    ensures { Returns (λ x. (items.Variable x, tokens.new)) result (behind_kind_at headed.name headed.linkage headed.constant tokens.old) }
{
    let body = body_at(alloc, headed.linkage, tokens)?;
    Ok(variable_of(headed, body.typed, body.init, body.align))
}

/// Reads a variable, `@g = internal constant [2 x i8] c"a\00", align 1`, and adds it.
///
/// An initialiser stands exactly where `external` isn't written. Words of visibility, comdats and
/// metadata are dropped, and of several alignments the last one stands.
#[tactic(auto, using(crate::proofs::Grouping::variable_line_is))]
pub fn variable_line_into(
    alloc: Global,
    items: &mut Vec<Item>,
    tokens: &mut Tokens,
) -> Result<(), ReaderError>
    ensures { Returns (λ _. (items.new.items, tokens.new)) result (pushed_at items.old.items variable_line_at tokens.old) }
{
    let headed = headed_at(alloc, tokens)?;
    let variable = behind_kind_at(alloc, headed, tokens)?;
    push_item(items, Item::Variable(variable))
}
