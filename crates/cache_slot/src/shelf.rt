//! The value that the cache's callers use in turn.
ghost use Rattle.std.specs.Prelude.{◌≡◌};
ghost use Rattle.cache_slot.specs.Shelved.{IsShelved};
ghost use Rattle.cache_slot.specs.Directory.{dir_of};
ghost use Rattle.std.proofs.Props.{props};

use crate::directory::dir_str;
use crate::find::find;
use crate::kept::Kept;
use crate::key::Key;
use crate::record::{Note, Record, note_of};
use crate::records::Records;
use crate::rule::Logged;
use crate::save::{kept_of, save};
use crate::setting::Setting;
use ir_tree::Text;
use lto_outside::CacheDisk;
use std::alloc::{AllocError, Global};
use std::marker::PhantomData;

/// The disk, the directory, and the history, which is empty at first.
#[derive(Drop)]
pub struct Shelf<D: CacheDisk, S: Setting> {
    disk: D,
    dir: Option<String>,
    records: Records,
    setting: PhantomData<S>,
    pub ghost same_dir: { dir_of dir ≡ S.dir } by { Prim.hlevel props },
    pub ghost kept: { ∥ IsShelved D.fits S.keys S.dir S.faults S.files (D.faults disk) (D.held disk) records.history.items ∥₁ },
}

impl<D: CacheDisk, S: Setting> Logged<Record> for Shelf<D, S> {
    ghost log = { λ s. s.records.history.items };
}

impl<D: CacheDisk, S: Setting> Shelf<D, S> {
    ghost use Rattle.std.specs.Prelude.{◌≤◌, ◌<◌, ◌+◌, ◌^◌, [], ◌⊎◌, None, length, IfOk, IfSome, OnErr};
    ghost use Rattle.std.specs.List.{Contains};
    ghost use Rattle.lto_outside.specs.DiskStore.{DiskStays};
    ghost use Rattle.lto_outside.specs.Honest.{IsHonest};
    ghost use Rattle.cache_slot.specs.Decoded.{decoded};
    ghost use Rattle.cache_slot.specs.Found.{NeedsNoDisk, LookedOn, Stored, StoredOn};
    ghost use Rattle.cache_slot.specs.Records.{text_of};

    /// A shelf with an empty history. Takes no memory.
    pub fn new(alloc: Global, disk: D, dir: Option<String>) -> Self
        requires dir { S.dir ≡ dir_of dir }
        requires faults { S.faults ≡ D.faults disk }
        requires files { S.files ≡ D.held disk }
        ensures { (result.records.history.items ≡ []) × (result.disk ≡ disk) }
    {
        Shelf {
            disk,
            dir,
            records: Records::new(alloc),
            setting: PhantomData,
        }
    }

    /// The text of the key: that of an entry, or else that of the key's file. One record is added, and the disk is called
    /// only where no entry has the key and there is a directory. Refused where there is no memory or no more records can be
    /// counted, and then the history and every file are as before.
    pub fn look(&mut self, alloc: Global, key: &[u8]) -> Result<Option<Text>, AllocError>
        ensures found { IfOk result (LookedOn (D.held self.old.disk) (D.faults self.old.disk) (D.faults self.new.disk) S.dir key.now self.old.records.history.items self.new.records.history.items) }
        ensures fits { IfOk result (λ answer. IfSome answer (λ text. (S.dir ≡ None) ⊎ IsHonest decoded D.fits S.files → ∥ D.fits key.now text ∥₁)) }
        ensures stay { DiskStays (D.held self.old.disk) (D.held self.new.disk) }
        ensures later { D.faults self.old.disk ≤ D.faults self.new.disk }
        ensures uncalled { NeedsNoDisk S.dir self.old.records.history.items key.now → self.new.disk ≡ self.old.disk }
        ensures err { OnErr result (self.new.records.history.items ≡ self.old.records.history.items) }
    {
        self.records.check_count()?;
        let own = Key::copied(alloc, key)?;
        let Shelf {
            disk,
            dir,
            records,
            setting: _,
        } = self;
        let found = find(alloc, records, disk, dir_str(dir), &own)?;
        records.note(&note_of(&found, key));
        Ok(found.ok())
    }

    /// Makes the pair an entry, and saves it where there is a directory, unless an entry has the key. One record is
    /// added. Refused where there is no memory or no more records can be counted, and then the history and the disk are as
    /// before.
    pub fn keep(&mut self, alloc: Global, key: &[u8], text: &[u8]) -> Result<Kept, AllocError>
        requires key { S.keys key.now }
        requires made { D.fits key.now text.now }
        ensures stored { IfOk result (Stored S.dir key.now text.now self.old.records.history.items self.new.records.history.items) }
        ensures disk { IfOk result (StoredOn (D.held self.old.disk) (D.held self.new.disk) (D.faults self.old.disk) (D.faults self.new.disk) S.dir key.now text.now) }
        ensures later { D.faults self.old.disk ≤ D.faults self.new.disk }
        ensures uncalled { NeedsNoDisk S.dir self.old.records.history.items key.now → self.new.disk ≡ self.old.disk }
        ensures err { OnErr result ((self.new.records.history.items ≡ self.old.records.history.items) × (self.new.disk ≡ self.old.disk)) }
    {
        self.records.check_count()?;
        let own = Key::copied(alloc, key)?;
        if self.records.text(&own).is_some() {
            self.records.note(&Note::Again(key));
            return Ok(Kept::Already);
        }
        self.add(alloc, own, text)
    }

    /// Makes the pair an entry, the first of its key, and saves it where there is a directory. Refused where there is no
    /// memory, and then the history and the disk are as before.
    fn add(&mut self, alloc: Global, key: Key, text: &[u8]) -> Result<Kept, AllocError>
        requires count { length self.old.records.history.items + 1 < 2 ^ 64 }
        requires new { text_of key self.old.records.history.items ≡ None }
        requires key { S.keys key }
        requires made { D.fits key text.now }
        ensures stored { IfOk result (Stored S.dir key text.now self.old.records.history.items self.new.records.history.items) }
        ensures disk { IfOk result (StoredOn (D.held self.old.disk) (D.held self.new.disk) (D.faults self.old.disk) (D.faults self.new.disk) S.dir key text.now) }
        ensures later { D.faults self.old.disk ≤ D.faults self.new.disk }
        ensures uncalled { S.dir ≡ None → self.new.disk ≡ self.old.disk }
        ensures err { OnErr result ((self.new.records.history.items ≡ self.old.records.history.items) × (self.new.disk ≡ self.old.disk)) }
    {
        let kept = Text::copied(alloc, text)?;
        self.records.reserve()?;
        let Shelf {
            disk,
            dir,
            records,
            setting: _,
        } = self;
        let failed = save(alloc, disk, dir_str(dir), key.as_slice(), text)?;
        records.enter(key, kept, failed);
        Ok(kept_of(failed))
    }

    /// How many records the history has.
    pub fn count(&self) -> u64
        ensures result { result ≡ length self.now.records.history.items }
        ensures small { length self.now.records.history.items < 2 ^ 64 }
    {
        self.records.count()
    }

    /// The disk.
    pub fn into_disk(self) -> D
        ensures { result ≡ self.disk }
    {
        let Shelf {
            disk,
            dir: _,
            records: _,
            setting: _,
        } = self;
        disk
    }
}
