//! Reads attributes of parameters, functions and calls, and keeps of them what the link needs (LangRef,
//! "Parameter Attributes", "Function Attributes", "Attribute Groups").

ghost use Rattle.std.specs.Prelude.{◌≡◌, IfOk};
ghost use Rattle.ir_lex.specs.TokenKinds.{number};
ghost use Rattle.ir_lex.specs.Tok.{tok};
ghost use Rattle.ir_parse_parts.specs.Alphabet.{contains, among};
ghost use Rattle.ir_parse_parts.specs.Readers.{Returns, next_is};
ghost use Rattle.ir_parse_parts.specs.Rules.{is_valued};
ghost use Rattle.ir_parse_heads.specs.Attributes.{WORDS, GROUP, words_of, kept_of, word_kept, none_kept, with_attribute, group_item};
ghost use Rattle.ir_parse_heads.specs.AttributesAt.{PARAMETER, CALL, DEFINITION, GROUPED, head_alignment_at, head_attribute_at, definition_attribute_at, definition_attributes_at, grouped_at, ended_group_at, named_group_at, attribute_group_at, aligned_at, parameter_attribute_at, parameter_attributes_at, word_tail_at, word_attribute_at, string_value_at, string_attribute_at, function_attribute_at, group_name_at, group_attribute_at, call_attribute_at, call_attributes_at};
ghost use Rattle.ir_parse_parts.specs.Classes.{tokens, refusal, one_of_at};
ghost use Rattle.ir_parse_parts.specs.Metadata.{META};
ghost use Rattle.ir_parse_parts.specs.Operands.{group_named};

use ir_lex::{Token, TokenKind};
use ir_parse_parts::{
    Bracket, Fault, Item, Name, ReaderError, TokenFault, Tokens, alignment_at, attached_at, done,
    expect, group_at, group_named, refusal,
};
use ir_tree::Rows;
use std::alloc::{AllocError, Global};

/// What is kept of an attribute.
#[derive(Drop)]
pub enum Attribute {
    Dropped,
    Noinline,
    Optnone,
    /// The attributes of a group, which may stand anywhere in the module.
    Group(Name),
}

/// What is kept of the attributes of a function: whether these two are among them, and the groups
/// that are named, in order.
#[derive(Drop)]
pub struct Kept {
    pub noinline: bool,
    pub optnone: bool,
    pub groups: Rows<Name>,
}

/// Where an attribute that is one word stands.
#[derive(Clone, Copy)]
pub enum AttributePlace {
    /// Behind the head of a function.
    Head,
    /// Behind the arguments of a call.
    Call,
    /// In an attribute group.
    Group,
}

/// Whether a word of this kind begins no item, no instruction and no terminator.
pub fn is_attribute_word(head: TokenKind) -> bool
    ensures { result ≡ contains WORDS (number head) }
{
    matches!(
        head,
        TokenKind::Word
            | TokenKind::MemoryInteger
            | TokenKind::RegisterInteger
            | TokenKind::Ptr
            | TokenKind::Void
            | TokenKind::RefusedType
            | TokenKind::Datalayout
            | TokenKind::Triple
            | TokenKind::Type
            | TokenKind::Opaque
            | TokenKind::Comdat
            | TokenKind::Any
            | TokenKind::GlobalVariable
            | TokenKind::Constant
            | TokenKind::Private
            | TokenKind::Internal
            | TokenKind::External
            | TokenKind::Linkonce
            | TokenKind::LinkonceOdr
            | TokenKind::Weak
            | TokenKind::WeakOdr
            | TokenKind::AvailableExternally
            | TokenKind::Visibility
            | TokenKind::UnnamedAddr
            | TokenKind::CallingConvention
            | TokenKind::ZeroInitializer
            | TokenKind::Times
            | TokenKind::True
            | TokenKind::False
            | TokenKind::Null
            | TokenKind::Poison
            | TokenKind::Inbounds
            | TokenKind::Nusw
            | TokenKind::Nuw
            | TokenKind::Nsw
            | TokenKind::Exact
            | TokenKind::Disjoint
            | TokenKind::Samesign
            | TokenKind::Nneg
            | TokenKind::Eq
            | TokenKind::Ne
            | TokenKind::Ugt
            | TokenKind::Uge
            | TokenKind::Ult
            | TokenKind::Ule
            | TokenKind::Sgt
            | TokenKind::Sge
            | TokenKind::Slt
            | TokenKind::Sle
            | TokenKind::To
            | TokenKind::LabelType
            | TokenKind::ParameterWord
            | TokenKind::ParameterGroup
            | TokenKind::Noinline
            | TokenKind::Optnone
    )
}

/// Whether a word of this kind is an attribute there.
fn is_word_of(place: AttributePlace, head: TokenKind) -> bool
    ensures { result ≡ contains (words_of place) (number head) }
{
    match place {
        AttributePlace::Head => is_attribute_word(head),
        AttributePlace::Call => head.is(TokenKind::Align) || is_attribute_word(head),
        AttributePlace::Group => {
            head.is(TokenKind::RefusedWord)
                || head.is(TokenKind::RefusedInteger)
                || head.is(TokenKind::Align)
                || is_attribute_word(head)
        }
    }
}

fn kept_of(head: TokenKind) -> Attribute
    ensures { result ≡ kept_of head }
{
    match head {
        TokenKind::Noinline => Attribute::Noinline,
        TokenKind::Optnone => Attribute::Optnone,
        _ => Attribute::Dropped,
    }
}

#[tactic(auto, unfolding(crate::specs::AttributesAt::aligned_at))]
fn aligned_at(alloc: Global, tokens: &mut Tokens) -> Result<(), ReaderError>
    ensures { Returns (λ x. (tt, tokens.new)) result (aligned_at tokens.old) }
{
    if tokens.comes(TokenKind::Number) {
        alignment_at(tokens)?;
        Ok(())
    } else {
        group_at(alloc, Bracket::Paren, tokens)
    }
}

#[tactic(auto, unfolding(crate::specs::AttributesAt::parameter_attribute_at))]
pub fn parameter_attribute_at(alloc: Global, tokens: &mut Tokens) -> Result<(), ReaderError>
    ensures { Returns (λ x. (tt, tokens.new)) result (parameter_attribute_at tokens.old) }
{
    if tokens.comes(TokenKind::ParameterWord) {
        expect(TokenKind::ParameterWord, tokens)
    } else if tokens.comes(TokenKind::ParameterGroup) {
        expect(TokenKind::ParameterGroup, tokens)?;
        group_at(alloc, Bracket::Paren, tokens)
    } else {
        expect(TokenKind::Align, tokens)?;
        aligned_at(alloc, tokens)
    }
}

/// Whether an attribute of a parameter comes.
fn comes_parameter_attribute(rest: &Tokens) -> bool
    ensures { result ≡ next_is (among tokens PARAMETER) rest.now }
{
    match rest.kind() {
        Some(head) => matches!(
            head,
            TokenKind::ParameterWord | TokenKind::ParameterGroup | TokenKind::Align
        ),
        None => false,
    }
}

/// Reads the attributes of a parameter, a result or an argument: `noundef align 8 captures(none)`.
#[tactic(auto, unfolding(crate::specs::AttributesAt::parameter_attributes_at))]
pub fn parameter_attributes_at(alloc: Global, tokens: &mut Tokens) -> Result<(), ReaderError>
    ensures { Returns (λ x. (tt, tokens.new)) result (parameter_attributes_at tokens.old) }
{
    'each: while comes_parameter_attribute(tokens) {
        parameter_attribute_at(alloc, tokens)?;
    }
    Ok(())
}

#[tactic(auto, unfolding(crate::specs::AttributesAt::word_tail_at))]
fn word_tail_at(alloc: Global, tokens: &mut Tokens) -> Result<(), ReaderError>
    ensures { Returns (λ x. (tt, tokens.new)) result (word_tail_at tokens.old) }
{
    if tokens.comes(TokenKind::OpenParen) {
        group_at(alloc, Bracket::Paren, tokens)
    } else if tokens.comes(TokenKind::Equals) {
        expect(TokenKind::Equals, tokens)?;
        expect(TokenKind::Number, tokens)
    } else {
        Ok(())
    }
}

#[tactic(auto, unfolding(ir_parse_parts::specs::Rules::is_among))]
fn word_at(place: AttributePlace, tokens: &mut Tokens) -> Result<Attribute, ReaderError>
    ensures { Returns (λ x. (x, tokens.new)) result (one_of_at (words_of place) word_kept tokens.old) }
{
    let left = tokens.left();
    match tokens.take() {
        None => Err(ReaderError::Fault(Fault {
            left,
            kind: TokenFault::Syntax,
        })),
        Some(t) => {
            if is_word_of(place, t.kind) {
                Ok(kept_of(t.kind))
            } else {
                Err(ReaderError::Fault(Fault {
                    left,
                    kind: refusal(t.kind),
                }))
            }
        }
    }
}

#[tactic(auto, unfolding(crate::specs::AttributesAt::word_attribute_at))]
fn word_attribute_at(
    alloc: Global,
    place: AttributePlace,
    tokens: &mut Tokens,
) -> Result<Attribute, ReaderError>
    ensures { Returns (λ x. (x, tokens.new)) result (word_attribute_at (words_of place) tokens.old) }
{
    let kept = word_at(place, tokens)?;
    word_tail_at(alloc, tokens)?;
    Ok(kept)
}

#[tactic(auto, unfolding(crate::specs::AttributesAt::string_value_at))]
fn string_value_at(tokens: &mut Tokens) -> Result<(), ReaderError>
    ensures { Returns (λ x. (tt, tokens.new)) result (string_value_at tokens.old) }
{
    expect(TokenKind::Equals, tokens)?;
    expect(TokenKind::Str, tokens)
}

#[tactic(auto, unfolding(crate::specs::AttributesAt::string_attribute_at))]
fn string_attribute_at(tokens: &mut Tokens) -> Result<Attribute, ReaderError>
    ensures { Returns (λ x. (x, tokens.new)) result (string_attribute_at tokens.old) }
{
    expect(TokenKind::Str, tokens)?;
    if tokens.comes(TokenKind::Equals) {
        string_value_at(tokens)?;
    }
    Ok(Attribute::Dropped)
}

#[tactic(auto, unfolding(crate::specs::AttributesAt::function_attribute_at))]
fn function_attribute_at(
    alloc: Global,
    place: AttributePlace,
    tokens: &mut Tokens,
) -> Result<Attribute, ReaderError>
    ensures { Returns (λ x. (x, tokens.new)) result (function_attribute_at (words_of place) tokens.old) }
{
    if tokens.comes(TokenKind::Str) {
        string_attribute_at(tokens)
    } else {
        word_attribute_at(alloc, place, tokens)
    }
}

#[tactic(auto, unfolding(ir_parse_parts::specs::Rules::is_valued))]
fn group_means(alloc: Global, t: &Token) -> Result<Result<Name, TokenFault>, AllocError>
    ensures { IfOk result (λ x. x ≡ is_valued tokens refusal GROUP group_named (tok t.now)) }
{
    if t.kind.is(TokenKind::Group) {
        match group_named(alloc, t)? {
            None => Ok(Err(TokenFault::Number)),
            Some(name) => Ok(Ok(name)),
        }
    } else {
        Ok(Err(refusal(t.kind)))
    }
}

/// Takes the name of an attribute group.
fn group_name_at(alloc: Global, tokens: &mut Tokens) -> Result<Name, ReaderError>
    ensures { Returns (λ x. (x, tokens.new)) result (group_name_at tokens.old) }
{
    let left = tokens.left();
    match tokens.take() {
        None => Err(ReaderError::Fault(Fault {
            left,
            kind: TokenFault::Syntax,
        })),
        Some(t) => match group_means(alloc, &t)? {
            Ok(x) => Ok(x),
            Err(kind) => Err(ReaderError::Fault(Fault { left, kind })),
        },
    }
}

#[tactic(auto, unfolding(crate::specs::AttributesAt::group_attribute_at))]
fn group_attribute_at(alloc: Global, tokens: &mut Tokens) -> Result<Attribute, ReaderError>
    ensures { Returns (λ x. (x, tokens.new)) result (group_attribute_at tokens.old) }
{
    let name = group_name_at(alloc, tokens)?;
    Ok(Attribute::Group(name))
}

#[tactic(auto, unfolding(crate::specs::AttributesAt::call_attribute_at))]
fn call_attribute_at(alloc: Global, tokens: &mut Tokens) -> Result<Attribute, ReaderError>
    ensures { Returns (λ x. (x, tokens.new)) result (call_attribute_at tokens.old) }
{
    if tokens.comes(TokenKind::Group) {
        group_attribute_at(alloc, tokens)
    } else {
        function_attribute_at(alloc, AttributePlace::Call, tokens)
    }
}

fn begins_call_attribute(head: TokenKind) -> bool
    ensures { result ≡ contains CALL (number head) }
{
    head.is(TokenKind::Group) || head.is(TokenKind::Str) || is_word_of(AttributePlace::Call, head)
}

/// Whether an attribute comes that may stand behind the arguments of a call.
fn comes_call_attribute(rest: &Tokens) -> bool
    ensures { result ≡ next_is (among tokens CALL) rest.now }
{
    match rest.kind() {
        Some(head) => begins_call_attribute(head),
        None => false,
    }
}

/// Reads what stands behind the arguments of a call, and drops it.
#[tactic(auto, unfolding(crate::specs::AttributesAt::call_attributes_at))]
pub fn call_attributes_at(alloc: Global, tokens: &mut Tokens) -> Result<(), ReaderError>
    ensures { Returns (λ x. (tt, tokens.new)) result (call_attributes_at tokens.old) }
{
    'each: while comes_call_attribute(tokens) {
        call_attribute_at(alloc, tokens)?;
    }
    Ok(())
}

#[tactic(auto, unfolding(crate::specs::AttributesAt::head_alignment_at))]
fn head_alignment_at(alloc: Global, tokens: &mut Tokens) -> Result<Attribute, ReaderError>
    ensures { Returns (λ x. (x, tokens.new)) result (head_alignment_at tokens.old) }
{
    expect(TokenKind::Align, tokens)?;
    if tokens.comes(TokenKind::Number) {
        alignment_at(tokens)?;
    } else {
        word_tail_at(alloc, tokens)?;
    }
    Ok(Attribute::Dropped)
}

#[tactic(auto, unfolding(crate::specs::AttributesAt::head_attribute_at))]
pub fn head_attribute_at(alloc: Global, tokens: &mut Tokens) -> Result<Attribute, ReaderError>
    ensures { Returns (λ x. (x, tokens.new)) result (head_attribute_at tokens.old) }
{
    if tokens.comes(TokenKind::Group) {
        group_attribute_at(alloc, tokens)
    } else if tokens.comes(TokenKind::Align) {
        head_alignment_at(alloc, tokens)
    } else {
        function_attribute_at(alloc, AttributePlace::Head, tokens)
    }
}

/// Whether metadata comes.
fn comes_metadata(rest: &Tokens) -> bool
    ensures { result ≡ next_is (among tokens META) rest.now }
{
    match rest.kind() {
        Some(head) => matches!(head, TokenKind::Meta | TokenKind::Bang),
        None => false,
    }
}

#[tactic(auto, unfolding(crate::specs::AttributesAt::attached_attribute_at, crate::specs::AttributesAt::definition_attribute_at))]
fn definition_attribute_at(alloc: Global, tokens: &mut Tokens) -> Result<Attribute, ReaderError>
    ensures { Returns (λ x. (x, tokens.new)) result (definition_attribute_at tokens.old) }
{
    if comes_metadata(tokens) {
        attached_at(alloc, tokens)?;
        Ok(Attribute::Dropped)
    } else {
        head_attribute_at(alloc, tokens)
    }
}

fn begins_definition_attribute(head: TokenKind) -> bool
    ensures { result ≡ contains DEFINITION (number head) }
{
    head.is(TokenKind::Meta)
        || head.is(TokenKind::Bang)
        || head.is(TokenKind::Group)
        || head.is(TokenKind::Align)
        || head.is(TokenKind::Str)
        || is_word_of(AttributePlace::Head, head)
}

/// Whether an attribute of a definition comes.
fn comes_definition_attribute(rest: &Tokens) -> bool
    ensures { result ≡ next_is (among tokens DEFINITION) rest.now }
{
    match rest.kind() {
        Some(head) => begins_definition_attribute(head),
        None => false,
    }
}

impl Kept {
    /// Nothing.
    fn new(alloc: Global) -> Self
        ensures { result ≡ none_kept }
    {
        Kept {
            noinline: false,
            optnone: false,
            groups: Rows::new(alloc),
        }
    }

    /// What is kept with one attribute more.
    fn with(self, attribute: Attribute) -> Result<Kept, AllocError>
        ensures { IfOk result (λ x. x ≡ with_attribute self attribute) }
    {
        match attribute {
            Attribute::Dropped => Ok(self),
            Attribute::Noinline => Ok(Kept {
                noinline: true,
                ..self
            }),
            Attribute::Optnone => Ok(Kept {
                optnone: true,
                ..self
            }),
            Attribute::Group(name) => {
                let mut groups = self.groups;
                groups.push(name)?;
                Ok(Kept {
                    noinline: self.noinline,
                    optnone: self.optnone,
                    groups,
                })
            }
        }
    }
}

/// Reads what stands between the head of a definition and its body, and keeps what the link needs.
#[tactic(auto, unfolding(crate::specs::AttributesAt::definition_attributes_at))]
pub fn definition_attributes_at(alloc: Global, tokens: &mut Tokens) -> Result<Kept, ReaderError>
    ensures { Returns (λ x. (x, tokens.new)) result (definition_attributes_at tokens.old) }
{
    let mut kept = Kept::new(alloc);
    'each: while comes_definition_attribute(tokens) {
        let attribute = definition_attribute_at(alloc, tokens)?;
        kept = kept.with(attribute)?;
    }
    Ok(kept)
}

fn begins_grouped(head: TokenKind) -> bool
    ensures { result ≡ contains GROUPED (number head) }
{
    head.is(TokenKind::Str) || is_word_of(AttributePlace::Group, head)
}

/// Whether an attribute of a group comes.
fn comes_grouped(rest: &Tokens) -> bool
    ensures { result ≡ next_is (among tokens GROUPED) rest.now }
{
    match rest.kind() {
        Some(head) => begins_grouped(head),
        None => false,
    }
}

#[tactic(auto, unfolding(crate::specs::AttributesAt::grouped_at))]
fn grouped_at(alloc: Global, tokens: &mut Tokens) -> Result<Kept, ReaderError>
    ensures { Returns (λ x. (x, tokens.new)) result (grouped_at tokens.old) }
{
    let mut kept = Kept::new(alloc);
    'each: while comes_grouped(tokens) {
        let attribute = function_attribute_at(alloc, AttributePlace::Group, tokens)?;
        kept = kept.with(attribute)?;
    }
    Ok(kept)
}

fn group_item(group: Name, kept: Kept) -> Item
    ensures { result ≡ group_item group kept }
{
    Item::Attributes {
        group,
        noinline: kept.noinline,
        optnone: kept.optnone,
    }
}

/// Reads what follows the attributes of a group.
fn ended_group_at(group: Name, kept: Kept, tokens: &mut Tokens) -> Result<Item, ReaderError>
    ensures { Returns (λ x. (x, tokens.new)) result (ended_group_at group kept tokens.old) }
{
    expect(TokenKind::CloseBrace, tokens)?;
    done(group_item(group, kept))
}

/// Reads what follows the name of an attribute group.
fn named_group_at(alloc: Global, group: Name, tokens: &mut Tokens) -> Result<Item, ReaderError>
    ensures { Returns (λ x. (x, tokens.new)) result (named_group_at group tokens.old) }
{
    expect(TokenKind::Equals, tokens)?;
    expect(TokenKind::OpenBrace, tokens)?;
    let kept = grouped_at(alloc, tokens)?;
    ended_group_at(group, kept, tokens)
}

/// Reads an attribute group: `attributes #0 = { nounwind "frame-pointer"="all" }`.
#[tactic(auto, unfolding(crate::specs::AttributesAt::attribute_group_at))]
pub fn attribute_group_at(alloc: Global, tokens: &mut Tokens) -> Result<Item, ReaderError>
    ensures { Returns (λ x. (x, tokens.new)) result (attribute_group_at tokens.old) }
{
    expect(TokenKind::Attributes, tokens)?;
    let group = group_name_at(alloc, tokens)?;
    named_group_at(alloc, group, tokens)
}
