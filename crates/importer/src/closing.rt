//! Declarations of what values refer to and lack.
ghost use Rattle.std.specs.Prelude.{◌≡◌, ◌++◌, filter_map, IfOk, OnOk};
ghost use Rattle.ir_summary.specs.Once.{texts};
ghost use Rattle.lto_task.specs.Tasks.{globals_of};
ghost use Rattle.importer.specs.Brought.{joined};
ghost use Rattle.importer.specs.Tables.{lacked_as, option_list, value_in, values};
ghost use Rattle.importer.specs.Tasks.{IsModuleOf, declared_as};

use crate::names::{references_of, sort_names};
use crate::outside::host_named;
use crate::setting::Setting;
use crate::table::noted;
use ir_flow::AnalysedValue;
use ir_tree::{GlobalValue, Rows};
use lto_task::{TaskModule, declaration_of};
use std::alloc::{AllocError, Global};
use std::collections::HashMap;

/// Adds a declaration, if there is one.
fn push_some(list: &mut Rows<AnalysedValue>, value: Option<GlobalValue>) -> Result<(), AllocError>
    ensures { OnOk result (list.new ≡ list.old ++ option_list value) }
{
    if let Some(global) = value {
        list.push(AnalysedValue::of(global, None))?;
    }
    Ok(())
}

impl<'a> Setting<'a> {
    /// The declaration of what has the name: as the link has it, or the system.
    fn declared_as(&self, alloc: Global, name: &[u8]) -> Result<Option<GlobalValue>, AllocError>
        ensures { IfOk result (λ found. found ≡ declared_as (joined self.now.parts.now) name.now) }
    {
        match self.value_named(name) {
            Some(value) => {
                let declared = declaration_of(alloc, value.value())?;
                Ok(Some(declared))
            }
            None => host_named(alloc, name),
        }
    }

    /// The same, unless one of these values has the name.
    fn lacked_as(
        &self,
        alloc: Global,
        own: &HashMap<&[u8], &AnalysedValue>,
        name: &[u8],
    ) -> Result<Option<GlobalValue>, AllocError>
        ensures { IfOk result (λ found. found ≡ lacked_as (joined self.now.parts.now) (value_in own.now) name.now) }
    {
        match own.get(&name) {
            Some(_) => Ok(None),
            None => self.declared_as(alloc, name),
        }
    }

    /// The declarations of those of these names that none of these values has.
    fn declarations(
        &self,
        alloc: Global,
        own: &HashMap<&[u8], &AnalysedValue>,
        names: &[&[u8]],
    ) -> Result<Rows<AnalysedValue>, AllocError>
        ensures { IfOk result (λ declared. declared ≡ filter_map (lacked_as (joined self.now.parts.now) (value_in own.now)) (texts names.now)) }
    {
        let mut declared = Rows::new(alloc);
        for name in names {
            let value = self.lacked_as(alloc, own, name)?;
            push_some(&mut declared, value)?;
        }
        Ok(declared)
    }

    /// These values, and behind them declarations of all that they refer to and lack, in the order of names.
    pub(crate) fn module_of(
        &self,
        alloc: Global,
        defined: Vec<&'a AnalysedValue>,
    ) -> Result<TaskModule<'a>, AllocError>
        ensures { IfOk result (λ m. IsModuleOf (joined self.now.parts.now) (values defined.entry.items) (globals_of m)) }
    {
        let own = noted(alloc, &defined)?;
        let mut names = references_of(alloc, &defined)?;
        sort_names(&mut names);
        let declared = self.declarations(alloc, &own, &names)?;
        Ok(TaskModule { defined, declared })
    }
}
