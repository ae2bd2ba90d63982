//! What a local, a label or a type is known by (LangRef, "Identifiers").
ghost use Rattle.std.specs.Prelude.{◌≡◌, IfOk};
ghost use Rattle.ir_parse_names.specs.Keys.{key_of, number_of, IsWritten};
ghost use Rattle.ir_parse_names.specs.KeyViews.{key};

use crate::number::{decimal_of, is_numeral};
use ir_parse_parts::Name;
use std::alloc::{AllocError, Global};
use std::borrow::CowSlice;

/// A name by its bytes, or a number. Bytes that are written without a backslash are borrowed. A number
/// that is written is below `2^32`; one that is counted may be past that.
#[derive(PartialEq, Eq, Hash, Drop)]
pub enum Key<'t> {
    Spelled(CowSlice<'t, u8, Global>),
    Written(u64),
}

/// The number that stands for a name.
#[tactic(auto, unfolding(crate::specs::Keys::number_of))]
pub fn number_of(name: &Name) -> Option<u32>
    ensures { result ≡ number_of name.now }
{
    let text = name.token().bare();
    if is_numeral(text) {
        decimal_of(text)
    } else {
        None
    }
}

/// What a name is known by.
#[tactic(auto, unfolding(crate::specs::Keys::key_of))]
pub fn key_of<'t>(alloc: Global, name: &'t Name) -> Result<Key<'t>, AllocError>
    ensures exact { IfOk result (λ k. key k ≡ key_of name.now) }
    ensures written { IfOk result (λ k. IsWritten (key k)) }
{
    match number_of(name) {
        Some(n) => Ok(Key::Written(u64::from(n))),
        None => {
            let text = name.token().content(alloc)?;
            Ok(Key::Spelled(text))
        }
    }
}
