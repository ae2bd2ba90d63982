//! The records of the history.
ghost use Rattle.std.specs.Prelude.{◌≡◌};
ghost use Rattle.cache_slot.specs.Found.{record_of};
ghost use Rattle.cache_slot.specs.Noted.{noted};

use ir_tree::Text;

/// Why a look-up found nothing.
#[derive(Clone, Copy)]
pub enum Why {
    /// No entry has the key, and the cache has no directory.
    NoDirectory,
    /// No entry has the key, and the file of its name is absent, is no entry, or is that of another key.
    Lacking,
    /// No entry has the key, and the disk failed.
    Fault,
}

/// What one look-up or store did. It is a word of contracts alone: no value of this type is ever made.
#[derive(Drop)]
pub enum Record {
    /// The text was stored under the key, under which there was none. Where there is a directory it was saved there, or
    /// the save failed.
    Entry { key: Text, text: Text, failed: bool },
    /// A store found an entry of the key.
    Again(Text),
    /// A look-up found a text of the key.
    Hit(Text),
    /// A look-up found none.
    Miss(Text, Why),
}

/// A record as it is added to the history, whose key and text are borrowed and aren't kept.
#[derive(Clone, Copy)]
pub(crate) enum Note<'a> {
    Entry {
        key: &'a [u8],
        text: &'a [u8],
        failed: bool,
    },
    Again(&'a [u8]),
    Hit(&'a [u8]),
    Miss(&'a [u8], Why),
}

/// The record of a look-up.
pub(crate) fn note_of<'a>(found: &Result<Text, Why>, key: &'a [u8]) -> Note<'a>
    ensures { noted result ≡ record_of key.now found.now }
{
    match found {
        Ok(_) => Note::Hit(key),
        Err(why) => Note::Miss(key, *why),
    }
}
