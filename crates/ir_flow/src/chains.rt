//! Lists that grow at the front, over one list of links.
ghost use Rattle.std.specs.Prelude.{◌≡◌, ℕ, List, ◌<◌, ◌≤◌, ◌++◌, [], ◌∷◌, length, map, IfOk, OnOk, nat_eq, if◌then◌else◌};
ghost use Rattle.ir_flow.specs.Chained.{AreChains, AreRows, IsChain, IsLinked, past};
ghost use Rattle.ir_tree.specs.Flow.{repeated};

use crate::graph::Edges;
use std::alloc::{AllocError, Global};

/// An item of a list, and the link behind it, which was made before it.
#[derive(Clone, Copy)]
pub struct Link {
    value: u32,
    next: Option<usize>,
}

/// A list for each key below a limit: the link at its front, if it has one.
#[derive(Drop)]
pub struct Chains {
    heads: Vec<Option<usize>>,
    links: Vec<Link>,
    ghost linked: { IsLinked links.items heads.items },
}

impl Chains {
    /// An empty list for each key below the limit.
    pub fn new(alloc: Global, limit: usize) -> Result<Chains, AllocError>
        ensures { IfOk result (λ c. (length c.heads.items ≡ limit) × AreChains c.links.items c.heads.items (λ k. [])) }
    {
        Ok(Chains {
            heads: vec![in alloc; None; limit]?,
            links: Vec::new(alloc),
        })
    }

    /// Puts a value in front of the list of a key; a key past the limit has none.
    fn put(&mut self, key: u32, value: u32) -> Result<(), AllocError>
        ensures limit { length self.new.heads.items ≡ length self.old.heads.items }
        ensures lists { OnOk result ((lists : ℕ → List ℕ) → AreChains self.old.links.items self.old.heads.items lists → AreChains self.new.links.items self.new.heads.items (λ k. if nat_eq key k then value ∷ lists k else lists k)) }
    {
        let key = key as usize;
        if key < self.heads.len() {
            let link = self.links.len();
            let next = self.heads[key];
            self.links.push(Link { value, next })?;
            self.heads[key] = Some(link);
        }
        Ok(())
    }

    /// Puts a value in front of the list of each of these keys, the last one first.
    pub fn lead(&mut self, value: u32, keys: &[u32]) -> Result<(), AllocError>
        ensures limit { length self.new.heads.items ≡ length self.old.heads.items }
        ensures lists { OnOk result ((lists : ℕ → List ℕ) → AreChains self.old.links.items self.old.heads.items lists → AreChains self.new.links.items self.new.heads.items (λ k. repeated value k keys.now ++ lists k)) }
    {
        for i in (0..keys.len()).rev() {
            self.put(keys[i], value)?;
        }
        Ok(())
    }

    /// Adds the list that begins with a link to a row.
    fn walk(&self, head: Option<usize>, row: &mut Vec<u32>) -> Result<(), AllocError>
        requires { past head ≤ length self.now.links.items }
        ensures { OnOk result ((list : List ℕ) → IsChain self.now.links.items head list → row.new.items ≡ row.old.items ++ list) }
    {
        let mut at = head;
        while let Some(i) = at {
            let link = self.links[i];
            row.push(link.value)?;
            at = link.next;
        }
        Ok(())
    }

    /// The lists as rows, one for each key.
    pub fn rows(&self, alloc: Global) -> Result<Edges, AllocError>
        ensures { IfOk result (λ e. (lists : ℕ → List ℕ) → AreChains self.now.links.items self.now.heads.items lists → AreRows (length self.now.heads.items) lists e) }
    {
        let mut rows = Edges::new(alloc);
        let mut row = Vec::new(alloc);
        for head in &self.heads {
            row.clear();
            self.walk(*head, &mut row)?;
            rows.push(&row)?;
        }
        Ok(rows)
    }
}
