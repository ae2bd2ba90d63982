//! Look-ups of a key among pairs.
ghost use Rattle.std.specs.Prelude.{◌≡◌};
ghost use Rattle.std.specs.Option.{option_copied};
ghost use Rattle.link_core.specs.Machine.{text_of, found};

use crate::event::DiskPair;
use ir_tree::Text;

/// The text of the first pair of the key.
pub fn text_of<'a>(pairs: &'a [DiskPair], key: &[u8]) -> Option<&'a Text>
    ensures { option_copied result ≡ text_of key.now pairs.now }
{
    for pair in pairs {
        if pair.key.equals(key) {
            return Some(&pair.text);
        }
    }
    None
}

/// What a look-up finds: an entry, or else what the disk gives.
pub fn found<'a>(
    entries: &'a [DiskPair],
    disk: &'a [DiskPair],
    key: &[u8],
    given: bool,
) -> Option<&'a Text>
    ensures { option_copied result ≡ found entries.now disk.now key.now given }
{
    match text_of(entries, key) {
        Some(text) => Some(text),
        None if given => text_of(disk, key),
        None => None,
    }
}
