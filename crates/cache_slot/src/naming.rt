//! The name under which the entry of a key is kept.
ghost use Rattle.std.specs.Prelude.{◌≡◌, IfOk};
ghost use Rattle.cache_slot.specs.Named.{file_name_of};

use ir_tree::Text;
use sha1::Sha1;
use std::alloc::{AllocError, Global};

/// The SHA-1 (FIPS 180-4) of the key in lower-case hexadecimal, and `.tlto`.
pub fn file_name(alloc: Global, key: &[u8]) -> Result<Text, AllocError>
    ensures { IfOk result (λ name. name ≡ file_name_of key.now) }
{
    let digest = Sha1::digest(key);
    let mut name = hex::encode(alloc, &digest)?;
    name.push_str(".tlto")?;
    Ok(Text::of(name.into_bytes()))
}
