//! The linkage of values in the linked module.
ghost use Rattle.std.specs.Prelude.{◌≡◌, ℕ, List, IfOk};
ghost use Rattle.std.specs.List.{list_any};
ghost use Rattle.std.specs.Str.{bytes_eq};
ghost use Rattle.merge_meaning.specs.ByName.{has};
ghost use Rattle.emit.specs.Emissions.{linkage_of, settled};

use ir_tree::{GlobalValue, Linkage, Text};
use std::alloc::{AllocError, Global};
use std::collections::HashSet;

/// These names, as a set.
fn names_of<'a>(alloc: Global, names: &'a [Text]) -> Result<HashSet<&'a [u8]>, AllocError>
    ensures { IfOk result (λ set. (name : List ℕ) → has set name ≡ list_any (bytes_eq name) names.entry.now) }
{
    let mut set = HashSet::new(alloc);
    for name in names {
        set.insert(name.as_slice())?;
    }
    Ok(set)
}

/// The exported names of a link, which threads may share.
#[derive(Drop)]
pub struct Exported<'a> {
    pub exports: &'a [Text],
    names: HashSet<&'a [u8]>,
    ghost knows: { (name : List ℕ) → has names name ≡ list_any (bytes_eq name) exports.now },
}

impl<'a> Exported<'a> {
    /// These names.
    pub fn of(alloc: Global, exports: &'a [Text]) -> Result<Exported<'a>, AllocError>
        ensures { IfOk result (λ exported. exported.exports.now ≡ exports.entry.now) }
    {
        let names = names_of(alloc, exports)?;
        Ok(Exported { exports, names })
    }

    /// The linkage under which a name stands in the linked module.
    fn linkage_of(&self, name: &[u8]) -> Linkage
        ensures { result ≡ linkage_of self.now.exports.now name.now }
    {
        if self.names.contains(name) {
            Linkage::External
        } else {
            Linkage::Internal
        }
    }

    /// Gives a value the linkage that it has in the linked module.
    pub fn settle(&self, global: &mut GlobalValue)
        ensures { global.new ≡ settled self.now.exports.now global.old }
    {
        match global {
            GlobalValue::Variable(variable) => {
                variable.linkage = self.linkage_of(variable.symbol.name.as_slice());
            }
            GlobalValue::Function(function) => {
                function.linkage = self.linkage_of(function.symbol.name.as_slice());
            }
        }
    }
}
