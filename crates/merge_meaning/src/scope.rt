//! What names stand for in a module (LangRef, "Linkage Types": `private` and `internal`).
ghost use Rattle.std.specs.Prelude.{◌≡◌, ℕ, List, IfOk, is_none, true};
ghost use Rattle.ir_meaning.specs.Rename.{operand_under};
ghost use Rattle.ir_meaning.specs.Programs.{symbol_of};
ghost use Rattle.symbol_resolve.specs.Mentions as mentions;
ghost use Rattle.merge_meaning.specs.Kept.{is_kept};
ghost use Rattle.merge_meaning.specs.Merged.{is_own, prevails_as, standing_of};
ghost use Rattle.merge_meaning.specs.Scopes.{given_where, names_by, symbol_for};

use crate::lives::{Key, Link};
use combined_index::suffix_at;
use indexmap::IndexSet;
use ir_edit::Edit;
use ir_meaning::symbol_of;
use ir_tree::{Duplicate, GlobalValue, Linkage, Operand, Symbol};
use std::alloc::{AllocError, Global};

/// Whether a global value is a definition that its module keeps for itself.
#[tactic(auto, using(crate::proofs::Own::local_standing))]
fn is_local(global: &GlobalValue) -> bool
    ensures { result ≡ is_none (standing_of global.now) }
{
    match global {
        GlobalValue::Variable(variable) => match &variable.init {
            None => false,
            Some(_) => variable.linkage.is_local(),
        },
        GlobalValue::Function(function) => match function.blocks.as_slice() {
            [] => false,
            [_, ..] => function.linkage.is_local(),
        },
    }
}

/// The name of a global value.
pub(crate) fn name_of(global: &GlobalValue) -> &[u8]
    ensures { result.now ≡ (symbol_of global.now).name }
{
    match global {
        GlobalValue::Variable(variable) => variable.symbol.name.as_slice(),
        GlobalValue::Function(function) => function.symbol.name.as_slice(),
    }
}

/// The names that a module defines for itself.
fn own_names<'a>(
    alloc: Global,
    globals: &'a [GlobalValue],
) -> Result<IndexSet<&'a [u8]>, AllocError>
    ensures { IfOk result (λ own. (name : List ℕ) → is_kept own.keys name ≡ is_own globals.entry.now name) }
{
    let mut own = IndexSet::new(alloc);
    for global in globals {
        if is_local(global) {
            own.insert(name_of(global))?;
        }
    }
    Ok(own)
}

/// A module's number and its own names, and the link, where one keeps live symbols alone and gives final names.
#[derive(Drop)]
pub(crate) struct Scope<'a> {
    pub number: u32,
    pub own: IndexSet<&'a [u8]>,
    pub link: Option<Link<'a>>,
}

impl<'a> Scope<'a> {
    /// Of the module of this number, with these global values.
    pub fn of(
        alloc: Global,
        number: u32,
        globals: &'a [GlobalValue],
        link: Option<Link<'a>>,
    ) -> Result<Scope<'a>, AllocError>
        ensures number { IfOk result (λ scope. scope.number ≡ number) }
        ensures own { IfOk result (λ scope. (name : List ℕ) → is_kept scope.own.keys name ≡ is_own globals.entry.now name) }
        ensures link { IfOk result (λ scope. scope.link ≡ link.entry) }
    {
        let own = own_names(alloc, globals)?;
        Ok(Scope { number, own, link })
    }

    /// The home of the symbol that a name stands for in the module.
    fn home_of(&self, symbol: &Symbol) -> Option<u32>
        ensures { result ≡ (symbol_for self.now symbol.now).home }
    {
        if self.own.contains(symbol.name.as_slice()) {
            Some(self.number)
        } else {
            symbol.home
        }
    }

    /// The symbol that a name stands for in the module, under its final name where a link gives these.
    pub fn symbol(&self, alloc: Global, symbol: &Symbol) -> Result<Symbol, AllocError>
        ensures { IfOk result (λ s. s ≡ (names_by self.now).symbol symbol.now) }
    {
        let home = self.home_of(symbol);
        let mut name = symbol.name.duplicate(alloc)?;
        let Some(link) = self.link else {
            return Ok(Symbol { home, name });
        };
        name.append(suffix_at(link.suffixes, home))?;
        Ok(Symbol { home: None, name })
    }

    /// Whether the symbol that a name stands for in the module is live, where a link keeps live ones alone.
    fn is_live(&self, symbol: &Symbol) -> bool
        ensures { result ≡ given_where self.now.link true (symbol_for self.now symbol.now) }
    {
        let Some(link) = self.link else {
            return true;
        };
        let home = self.home_of(symbol);
        let name = symbol.name.as_slice();
        link.live.has(Key { home, name })
    }

    /// Whether the module gives the global value, where the definition of its name that others see is that of the module
    /// `chosen`: it is the definition of its symbol, and live.
    pub fn gives(&self, global: &GlobalValue, chosen: Option<u32>) -> bool
        ensures { result ≡ given_where self.now.link (prevails_as chosen self.now.number (standing_of global.now)) (symbol_for self.now (symbol_of global.now)) }
    {
        self.prevails(global, chosen) && self.is_live(symbol_of(global))
    }

    /// Whether the module's global value is the definition of its symbol, where the definition of its name that others see
    /// is that of the module `chosen`.
    fn prevails(&self, global: &GlobalValue, chosen: Option<u32>) -> bool
        ensures { result ≡ prevails_as chosen self.now.number (standing_of global.now) }
    {
        match global {
            GlobalValue::Variable(variable) => match &variable.init {
                None => false,
                Some(_) => self.counts(variable.linkage, chosen),
            },
            GlobalValue::Function(function) => match function.blocks.as_slice() {
                [] => false,
                [_, ..] => self.counts(function.linkage, chosen),
            },
        }
    }

    /// Whether a definition of this linkage counts.
    fn counts(&self, linkage: Linkage, chosen: Option<u32>) -> bool
        ensures { result ≡ prevails_as chosen self.now.number (mentions.standing_of linkage) }
    {
        match linkage {
            Linkage::Private | Linkage::Internal => true,
            Linkage::External
            | Linkage::Linkonce
            | Linkage::LinkonceOdr
            | Linkage::Weak
            | Linkage::WeakOdr => chosen == Some(self.number),
            Linkage::AvailableExternally => false,
        }
    }
}

impl<'a> Edit for Scope<'a> {
    ghost number_of = { λ scope x. x };

    ghost operand_of = { λ scope. operand_under (names_by scope) };

    fn number(&self, old: u32) -> Result<u32, AllocError> {
        Ok(old)
    }

    fn operand(&self, alloc: Global, old: &Operand) -> Result<Operand, AllocError> {
        match old {
            Operand::Symbol { symbol, offset } => {
                let symbol = self.symbol(alloc, symbol)?;
                Ok(Operand::Symbol {
                    symbol,
                    offset: *offset,
                })
            }
            _ => old.duplicate(alloc),
        }
    }
}
