//! Reads basic blocks (LangRef, "Functions").

ghost use Rattle.std.specs.Prelude.{◌≡◌, [], IfOk};
ghost use Rattle.ir_lex.specs.TokenKinds.{number};
ghost use Rattle.ir_lex.specs.Tok.{tok};
ghost use Rattle.ir_parse_parts.specs.Alphabet.{among, contains};
ghost use Rattle.ir_parse_parts.specs.Readers.{Returns, next_is};
ghost use Rattle.ir_parse_parts.specs.Rules.{is_valued};
ghost use Rattle.ir_parse_parts.specs.Classes.{tokens, refusal};
ghost use Rattle.ir_parse_parts.specs.Operands.{named};
ghost use Rattle.ir_parse_operands.specs.Terminators.{ENDS};
ghost use Rattle.ir_parse_bodies.specs.Blocks.{LABEL, block_of};
ghost use Rattle.ir_parse_bodies.specs.Adding.{added_at, joined_at};
ghost use Rattle.ir_parse_bodies.specs.BlocksAt.{BLOCK, label_at, maybe_label_at, lines_from_at, block_at, blocks_from_at, blocks_at};
ghost use Rattle.ir_parse_bodies.specs.LinesAt.{LINE};

use crate::lines::line_into;
use crate::meanings::meant;
use ir_lex::{Token, TokenKind};
use ir_parse_operands::{Ended, Listing, push, terminator_into};
use ir_parse_parts::{
    Block, Fault, Name, ReaderError, Terminator, TokenFault, Tokens, named, refusal,
};
use ir_tree::Rows;
use std::alloc::{AllocError, Global};

/// The blocks of a function while they are read.
///
/// A type of its own, so that what is proved of a list that is dropped is proved once.
#[derive(Drop)]
pub struct Blocks {
    pub list: Vec<Block>,
}

impl Blocks {
    /// None yet.
    pub fn new(alloc: Global) -> Blocks
        ensures { result.list.items ≡ [] }
    {
        Blocks {
            list: Vec::new(alloc),
        }
    }

    /// All of them.
    pub fn rows(self) -> Rows<Block>
        ensures { result ≡ self.list.items }
    {
        Rows::of(self.list)
    }
}

/// A block while it is read: its label, its lines so far, and its terminator.
#[derive(Drop)]
struct Begun {
    label: Option<Name>,
    listing: Listing,
    ended: Ended,
}

impl Begun {
    /// No label and no lines yet.
    fn new(alloc: Global) -> Begun
        ensures { result.listing.lines.items ≡ [] }
    {
        Begun {
            label: None,
            listing: Listing {
                lines: Vec::new(alloc),
                name: None,
                line: 0,
            },
            ended: Ended {
                terminator: Terminator::Unreachable,
                line: 0,
            },
        }
    }

    /// The block.
    fn block(self) -> Block
        ensures { result ≡ block_of self.label self.listing.lines.items self.ended }
    {
        let Begun {
            label,
            listing,
            ended,
        } = self;
        Block {
            label,
            lines: Rows::of(listing.lines),
            end: ended.terminator,
            end_line: ended.line,
        }
    }
}

#[tactic(auto, unfolding(ir_parse_parts::specs::Rules::is_valued))]
fn label_means(alloc: Global, t: &Token) -> Result<Result<Name, TokenFault>, AllocError>
    ensures { IfOk result (λ x. x ≡ is_valued tokens refusal LABEL named (tok t.now)) }
{
    if t.kind.is(TokenKind::Label) {
        match named(alloc, t)? {
            None => Ok(Err(TokenFault::Number)),
            Some(name) => Ok(Ok(name)),
        }
    } else {
        Ok(Err(refusal(t.kind)))
    }
}

/// Takes the label of a block.
fn label_at(alloc: Global, tokens: &mut Tokens) -> Result<Name, ReaderError>
    ensures { Returns (λ x. (x, tokens.new)) result (label_at tokens.old) }
{
    let left = tokens.left();
    match tokens.take() {
        None => Err(ReaderError::Fault(Fault {
            left,
            kind: TokenFault::Syntax,
        })),
        Some(t) => meant(left, label_means(alloc, &t)?),
    }
}

/// Whether a token of this kind begins an instruction, or the name of its result.
fn begins_line(head: TokenKind) -> bool
    ensures { result ≡ contains LINE (number head) }
{
    matches!(
        head,
        TokenKind::Local
            | TokenKind::Store
            | TokenKind::Add
            | TokenKind::Sub
            | TokenKind::Mul
            | TokenKind::Shl
            | TokenKind::Udiv
            | TokenKind::Sdiv
            | TokenKind::Lshr
            | TokenKind::Ashr
            | TokenKind::Urem
            | TokenKind::Srem
            | TokenKind::And
            | TokenKind::Xor
            | TokenKind::Or
            | TokenKind::Icmp
            | TokenKind::Zext
            | TokenKind::Sext
            | TokenKind::Trunc
            | TokenKind::Select
            | TokenKind::Freeze
            | TokenKind::Phi
            | TokenKind::Alloca
            | TokenKind::Load
            | TokenKind::GetElementPtr
            | TokenKind::TailMark
            | TokenKind::Call
    )
}

/// Whether a token of this kind begins a terminator.
fn begins_terminator(head: TokenKind) -> bool
    ensures { result ≡ contains ENDS (number head) }
{
    matches!(
        head,
        TokenKind::Ret | TokenKind::Br | TokenKind::Switch | TokenKind::Unreachable
    )
}

/// Whether a token of this kind begins a block.
fn begins_block(head: TokenKind) -> bool
    ensures { result ≡ contains BLOCK (number head) }
{
    head.is(TokenKind::Label) || begins_line(head) || begins_terminator(head)
}

/// Whether an instruction, or the name of its result, comes.
fn comes_line(rest: &Tokens) -> bool
    ensures { result ≡ next_is (among tokens LINE) rest.now }
{
    match rest.kind() {
        Some(head) => begins_line(head),
        None => false,
    }
}

/// Whether a block comes.
fn comes_block(rest: &Tokens) -> bool
    ensures { result ≡ next_is (among tokens BLOCK) rest.now }
{
    match rest.kind() {
        Some(head) => begins_block(head),
        None => false,
    }
}

/// Adds the lines of a block, of which there may be `room`. Returns how many more there may be.
fn lines_into(
    alloc: Global,
    room: usize,
    list: &mut Listing,
    tokens: &mut Tokens,
) -> Result<usize, ReaderError>
    ensures { Returns (λ left. ((list.new.lines.items, left), tokens.new)) result (lines_from_at room list.old.lines.items tokens.old) }
{
    let mut left = room;
    'each: while comes_line(tokens) {
        if left == 0 {
            return Err(ReaderError::Fault(Fault {
                left: tokens.left(),
                kind: TokenFault::Limit,
            }));
        }
        line_into(alloc, list, tokens)?;
        left -= 1;
    }
    Ok(left)
}

/// Reads the label of a block, where it has one.
fn maybe_label_at(alloc: Global, tokens: &mut Tokens) -> Result<Option<Name>, ReaderError>
    ensures { Returns (λ x. (x, tokens.new)) result (maybe_label_at tokens.old) }
{
    if tokens.comes(TokenKind::Label) {
        let label = label_at(alloc, tokens)?;
        Ok(Some(label))
    } else {
        Ok(None)
    }
}

/// Reads a block: its label, where it has one, its lines, of which there may be `room`, and its
/// terminator. Returns how many more lines there may be.
#[tactic(auto, unfolding(crate::specs::BlocksAt::block_behind_at, crate::specs::BlocksAt::lines_at), using(crate::proofs::Grouping::block_is))]
fn begun_into(
    alloc: Global,
    room: usize,
    begun: &mut Begun,
    tokens: &mut Tokens,
) -> Result<usize, ReaderError>
    requires { begun.now.listing.lines.items ≡ [] }
    ensures { Returns (λ left. ((block_of begun.new.label begun.new.listing.lines.items begun.new.ended, left), tokens.new)) result (block_at room tokens.old) }
{
    begun.label = maybe_label_at(alloc, tokens)?;
    let left = lines_into(alloc, room, &mut begun.listing, tokens)?;
    terminator_into(alloc, &mut begun.ended, tokens)?;
    Ok(left)
}

/// Reads a block, of which the function may have `room` instructions yet, and adds it. Returns how many
/// are left.
fn block_into(
    alloc: Global,
    room: usize,
    blocks: &mut Blocks,
    tokens: &mut Tokens,
) -> Result<usize, ReaderError>
    ensures { Returns (λ left. ((blocks.new.list.items, left), tokens.new)) result (added_at blocks.old.list.items (block_at room) tokens.old) }
{
    let mut begun = Begun::new(alloc);
    let left = begun_into(alloc, room, &mut begun, tokens)?;
    push(&mut blocks.list, begun.block())?;
    Ok(left)
}

/// Adds the blocks that follow, of which there may be `further` with `instructions` in all.
fn further_blocks_into(
    alloc: Global,
    further: usize,
    instructions: usize,
    blocks: &mut Blocks,
    tokens: &mut Tokens,
) -> Result<(), ReaderError>
    ensures { Returns (λ _. (blocks.new.list.items, tokens.new)) result (blocks_from_at further instructions blocks.old.list.items tokens.old) }
{
    let mut room = further;
    let mut left = instructions;
    'each: while comes_block(tokens) {
        if room == 0 {
            return Err(ReaderError::Fault(Fault {
                left: tokens.left(),
                kind: TokenFault::Limit,
            }));
        }
        left = block_into(alloc, left, blocks, tokens)?;
        room -= 1;
    }
    Ok(())
}

/// Reads blocks, at least one, and adds them: behind the first so many `further` ones at most, and so
/// many `instructions` in all of them, phis and dropped calls among them and terminators not.
///
/// The block too many is a fault at its first token, and the instruction too many at its own.
pub fn blocks_into(
    alloc: Global,
    further: usize,
    instructions: usize,
    blocks: &mut Blocks,
    tokens: &mut Tokens,
) -> Result<(), ReaderError>
    ensures { Returns (λ _. (blocks.new.list.items, tokens.new)) result (joined_at blocks.old.list.items (blocks_at further instructions) tokens.old) }
{
    let left = block_into(alloc, instructions, blocks, tokens)?;
    further_blocks_into(alloc, further, left, blocks, tokens)
}
