//! Lists that what is read is added to.
//!
//! The type of what is added is a parameter, so that what is proved of a list isn't proved of each
//! field of an instruction.

ghost use Rattle.std.specs.Prelude.{◌≡◌, ◌++◌, ◌∷◌, [], IfErr, OnOk};
ghost use Rattle.ir_tree.specs.declared.failure.Failure.TheVariants.{NoMemory};

use ir_parse_parts::{Item, ReaderError};

/// Adds a value, or says that memory ran out.
pub fn push<T: Drop>(list: &mut Vec<T>, value: T) -> Result<(), ReaderError>
    ensures pushed { OnOk result (list.new.items ≡ list.old.items ++ value ∷ []) }
    ensures memory { IfErr result (λ e. e ≡ NoMemory) }
{
    list.push(value)?;
    Ok(())
}

/// Adds an item, or says that memory ran out.
///
/// One call for all readers of items, so that what is proved of a list of items is proved once.
pub fn push_item(items: &mut Vec<Item>, item: Item) -> Result<(), ReaderError>
    ensures pushed { OnOk result (items.new.items ≡ items.old.items ++ item ∷ []) }
    ensures memory { IfErr result (λ e. e ≡ NoMemory) }
{
    push(items, item)
}
