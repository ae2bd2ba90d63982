//! The suffix that tells a module's locals from those of other modules.
ghost use Rattle.std.specs.Prelude.{◌≡◌, IfOk};
ghost use Rattle.combined_index.specs.Suffixes.{leading_number, suffix_of};

use ir_tree::Text;
use itoa::Buffer;
use sha1::Sha1;
use std::alloc::{AllocError, Global};

/// The number that the first eight bytes of a digest write, the highest first.
fn leading_number(digest: &[u8; 20]) -> u64
    ensures { result ≡ leading_number digest.now }
{
    u64::from_be_bytes([
        digest[0], digest[1], digest[2], digest[3], digest[4], digest[5], digest[6], digest[7],
    ])
}

/// The suffix of the locals of the module that has these bytes: `.llvm.`, and the first eight bytes
/// of their SHA-1 (FIPS 180-4) as a decimal number, the highest byte first.
pub fn suffix(alloc: Global, bytes: &[u8]) -> Result<Text, AllocError>
    ensures { IfOk result (λ suffix. suffix ≡ suffix_of bytes.now) }
{
    let digest = Sha1::digest(bytes);
    let number = leading_number(&digest);
    let mut buffer = Buffer::new();
    let mut suffix = Text::copied(alloc, b".llvm.")?;
    suffix.append(buffer.format(number).as_bytes())?;
    Ok(suffix)
}
