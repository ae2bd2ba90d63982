//! Blocks while they are joined.
ghost use Rattle.std.specs.Prelude.{◌≡◌, ◌≢◌, ◌++◌, ℕ, nat_eq, map, length, IfOk, OnOk, None, Some};
ghost use Rattle.std.specs.HashMap.{get};
ghost use Rattle.std.specs.HashSet.{contains};
ghost use Rattle.ir_tree.specs.Formed.{Distinct, numbers};
ghost use Rattle.ir_tree.specs.declared.block.Block.{Block};
ghost use Rattle.ir_tree.specs.declared.function.Function.{Function};
ghost use Rattle.block_trim.specs.Merged.{IsOneOf, behind_entry};
ghost use Rattle.block_trim.specs.Working.{HasContents, IsContentOf, IsGrown, IsJoined, IsTurnOf, Joined, block_of, blocks_taken, can_go, has_one_edge, left, may_go, name_in, naming, next};
ghost use Rattle.block_trim.specs.declared.joining.Content.{Content};

use crate::names::Names;
use ir_tree::{Block, Duplicate, Line, Rows, Terminator};
use std::alloc::{AllocError, Global};
use std::collections::{HashMap, HashSet, LinkedList};

/// What a block has behind its phis. Two lists of lines become one in constant time.
#[derive(Drop)]
pub(crate) struct Content {
    lines: LinkedList<Line>,
    end: Terminator,
}

/// The second block went into the first.
#[derive(Clone, Copy)]
pub(crate) struct Join {
    pub(crate) first: u32,
    pub(crate) second: u32,
}

/// The blocks of a function while they are joined: what is left of them, by their numbers, those that can go into another
/// one, and the joins so far.
#[derive(Drop)]
pub(crate) struct Joining {
    contents: HashMap<u32, Content>,
    candidates: HashSet<u32>,
    joins: Vec<Join>,
}

fn content_of(alloc: Global, block: &Block) -> Result<Content, AllocError>
    ensures { IfOk result (λ c. IsContentOf block.now c) }
{
    let mut lines = LinkedList::new(alloc);
    for line in block.lines.as_slice() {
        lines.push_back(line.duplicate(alloc)?)?;
    }
    let end = block.end.duplicate(alloc)?;
    Ok(Content { lines, end })
}

fn contents(alloc: Global, blocks: &[Block]) -> Result<HashMap<u32, Content>, AllocError>
    ensures { IfOk result (λ m. Distinct (map (λ b. b.number) blocks.now) → HasContents (length blocks.now) blocks.now (get nat_eq m)) }
{
    let mut contents = HashMap::new(alloc);
    for block in blocks {
        let content = content_of(alloc, block)?;
        contents.insert(block.number, content)?;
    }
    Ok(contents)
}

/// These lines, each of which moves once.
fn rows_of(alloc: Global, mut lines: LinkedList<Line>) -> Result<Rows<Line>, AllocError>
    ensures { IfOk result (λ rows. rows ≡ lines) }
{
    let mut rows = Rows::new(alloc);
    while let Some(line) = lines.pop_front() {
        rows.push(line)?;
    }
    Ok(rows)
}

/// What two blocks have, the second behind the first.
fn together(content: Content, gone: Content) -> Result<Content, AllocError>
    ensures { IfOk result (λ c. (c.lines ≡ content.lines ++ gone.lines) × (c.end ≡ gone.end)) }
{
    let Content { mut lines, end: _ } = content;
    let Content {
        lines: mut more,
        end,
    } = gone;
    lines.append(&mut more)?;
    Ok(Content { lines, end })
}

/// Puts what a block had behind what this one has.
fn put_behind(
    contents: &mut HashMap<u32, Content>,
    number: u32,
    gone: Content,
) -> Result<(), AllocError>
    ensures { OnOk result ((a : Content) → get nat_eq contents.old number ≡ Some a → IsGrown contents.old contents.new number a gone) }
{
    if let Some(content) = contents.remove(&number) {
        let whole = together(content, gone)?;
        contents.insert(number, whole)?;
    }
    Ok(())
}

/// The block that is left with these contents, and with the phis of the old one under their new names.
fn kept(alloc: Global, names: &Names, block: &Block, content: Content) -> Result<Block, AllocError>
    ensures { IfOk result (λ b. b ≡ block_of (name_in names.now) block.now content) }
{
    let Content { lines, end } = content;
    let phis = names.phis(alloc, block.phis.as_slice())?;
    let lines = rows_of(alloc, lines)?;
    Ok(Block {
        number: block.number,
        phis,
        lines,
        end,
    })
}

impl Joining {
    /// These blocks, of which none has been joined, and those that can go.
    pub(crate) fn of(
        alloc: Global,
        blocks: &[Block],
        candidates: HashSet<u32>,
    ) -> Result<Self, AllocError>
        requires { (n : ℕ) → contains nat_eq candidates n ≡ may_go (has_one_edge blocks.now) (behind_entry blocks.now) n }
        ensures { IfOk result (λ j. (f : Function) → f.blocks ≡ blocks.now → Distinct (numbers f) → Joined f j) }
    {
        let contents = contents(alloc, blocks)?;
        let joins = Vec::new(alloc);
        Ok(Joining {
            contents,
            candidates,
            joins,
        })
    }

    /// Whether the second block is another one that can go, and is left.
    fn can_go(&self, first: u32, second: u32) -> bool
        ensures { result ≡ can_go self.now first second }
    {
        second != first && self.candidates.contains(&second) && self.contents.contains_key(&second)
    }

    /// The block that goes into this one.
    fn next(&self, number: u32) -> Option<u32>
        ensures { result ≡ next self.now number }
    {
        match self.contents.get(&number) {
            None => None,
            Some(content) => match &content.end {
                Terminator::Jump(target) if self.can_go(number, *target) => Some(*target),
                _ => None,
            },
        }
    }

    /// The second block goes into the first.
    fn join(&mut self, first: u32, second: u32) -> Result<(), AllocError>
        ensures { OnOk result ((a b : Content) → first ≢ second → left self.old first ≡ Some a → left self.old second ≡ Some b → IsJoined self.old self.new first second a b) }
    {
        if let Some(gone) = self.contents.remove(&second) {
            put_behind(&mut self.contents, first, gone)?;
            self.joins.push(Join { first, second })?;
        }
        Ok(())
    }

    /// A block takes what goes into it, until nothing does.
    fn grow(&mut self, number: u32) -> Result<(), AllocError>
        ensures joined { OnOk result ((f : Function) → Distinct (numbers f) → IsTurnOf f self.old number → Joined f self.old → Joined f self.new) }
        ensures others { OnOk result ((n : ℕ) → next self.old n ≡ None → next self.new n ≡ None) }
        ensures done { OnOk result (next self.new number ≡ None) }
    {
        while let Some(second) = self.next(number) {
            self.join(number, second)?;
        }
        Ok(())
    }

    /// Each of the blocks, in their order, takes what goes into it.
    pub(crate) fn grow_all(&mut self, blocks: &[Block]) -> Result<(), AllocError>
        ensures joined { OnOk result ((f : Function) → f.blocks ≡ blocks.now → Distinct (numbers f) → Joined f self.old → Joined f self.new) }
        ensures done { OnOk result ((b : Block) → IsOneOf blocks.now b → next self.new b.number ≡ None) }
    {
        for taker in blocks {
            self.grow(taker.number)?;
        }
        Ok(())
    }

    /// The blocks that are left, with the phis of the old ones under their new names.
    pub(crate) fn blocks(
        mut self,
        alloc: Global,
        blocks: &[Block],
    ) -> Result<Rows<Block>, AllocError>
        ensures { IfOk result (λ rows. rows ≡ blocks_taken (naming self.joins.items) (left self) blocks.now) }
    {
        let names = Names::of(alloc, &self.joins)?;
        let mut rows = Rows::new(alloc);
        for block in blocks {
            match self.contents.remove(&block.number) {
                None => {}
                Some(content) => rows.push(kept(alloc, &names, block, content)?)?,
            }
        }
        Ok(rows)
    }
}
