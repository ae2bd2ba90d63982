//! The cache, its passes, and their calls.
ghost use Rattle.std.specs.Prelude.{◌≡◌, [], List};
ghost use Rattle.cache_slot.specs.declared.sight.Stage.TheVariants.{Out};

use crate::kept::Kept;
use crate::lock::TicketLock;
use crate::place::TurnHandle;
use crate::record::Record;
use crate::setting::Setting;
use crate::shelf::Shelf;
use ir_tree::Text;
use lto_outside::CacheDisk;
use std::alloc::{AllocError, Global};
use std::sync::Wait;

/// The cache that all workers of a command share.
///
/// It is shared by reference; dropping it without [`SharedCache::close`] is allowed.
#[derive(Drop)]
pub struct SharedCache<D: CacheDisk, S: Setting> {
    lock: TicketLock<Shelf<D, S>, Record>,
}

/// A handle: the right of one caller to use the cache, and what it has seen of the history: the list as it was at its last turn,
/// which stands in contracts alone.
#[derive(Drop)]
pub struct CachePass<D: CacheDisk, S: Setting> {
    place: TurnHandle<Shelf<D, S>, Record>,
    ghost idle: { (place.seat.me.0.stage ≡ Out) × (place.seat.me.1 ≡ []) },
}

/// There was no memory for the cache; the disk comes back.
#[derive(Drop)]
pub struct Refused<D: CacheDisk> {
    pub disk: D,
}

impl<D: CacheDisk, S: Setting> SharedCache<D, S> {
    ghost use Rattle.std.specs.Prelude.{◌≢◌, ℕ, ◌⊎◌, ◌^◌, ◌<◌, None, Some, IfOk, IfErr, IfSome, OnErr};
    ghost use Rattle.std.specs.List.{Contains};
    ghost use mathlib.Core.List.{IsPrefix};
    ghost use Rattle.cache_slot.specs.Views.{longer};
    ghost use Rattle.cache_slot.specs.Places.{IsAt, TookOneTurn, seen_by, before_turn};
    ghost use Rattle.lto_outside.specs.Honest.{IsHonest};
    ghost use Rattle.cache_slot.specs.Decoded.{decoded};
    ghost use Rattle.cache_slot.specs.Directory.{dir_of};
    ghost use Rattle.cache_slot.specs.Found.{Looked, Stored};
    ghost use Rattle.cache_slot.specs.Records.{text_of};
    ghost use Rattle.cache_slot.specs.Shelved.{IsShelved};

    /// A cache over the disk, whose history is empty, and its first pass. Refused for memory alone.
    pub fn new(
        alloc: Global,
        disk: D,
        dir: Option<String>,
    ) -> Result<(SharedCache<D, S>, CachePass<D, S>), Refused<D>>
        requires dir { S.dir ≡ dir_of dir }
        requires faults { S.faults ≡ D.faults disk }
        requires files { S.files ≡ D.held disk }
        ensures ok { IfOk result (λ r. IsAt r.0.lock.table.shared.table_id r.1.place.seat × (seen_by r.1.place.seat ≡ [])) }
        ensures err { IfErr result (λ r. r.disk ≡ disk) }
    {
        match TicketLock::new(alloc, Shelf::new(alloc, disk, dir)) {
            Ok((lock, place)) => Ok((SharedCache { lock }, CachePass { place })),
            Err(shelf) => Err(Refused {
                disk: shelf.into_disk(),
            }),
        }
    }

    /// The text of the key: one turn round one look at the shelf. May wait for other callers.
    pub fn lookup<W: Wait>(
        &self,
        rt: &W,
        alloc: Global,
        pass: &mut CachePass<D, S>,
        key: &[u8],
    ) -> Result<Option<Text>, AllocError>
        requires { IsAt self.now.lock.table.shared.table_id pass.old.place.seat }
        ensures pass { IsAt self.now.lock.table.shared.table_id pass.new.place.seat }

        // What it had seen begins the history that its one turn found, to which this turn added one record, or none where
        // memory was refused. It has seen all of that then.
        ensures turn { TookOneTurn pass.old.place.seat pass.new.place.seat }
        ensures seen { IsPrefix (seen_by pass.old.place.seat) (seen_by pass.new.place.seat) }
        ensures found { IfOk result (Looked S.dir key.now (before_turn pass.new.place.seat) (seen_by pass.new.place.seat)) }
        ensures err { OnErr result (seen_by pass.new.place.seat ≡ before_turn pass.new.place.seat) }

        // A key that the pass has seen stored is found.
        ensures known { (text : List ℕ) → text_of key.now (seen_by pass.old.place.seat) ≡ Some text → IfOk result (λ answer. answer ≡ Some text) }
        ensures fits { IfOk result (λ answer. IfSome answer (λ text. (S.dir ≡ None) ⊎ IsHonest decoded D.fits S.files → ∥ D.fits key.now text ∥₁)) }
    {
        let mut shelf = self.lock.take(rt, &mut pass.place);
        let before = shelf.count();
        let answer = shelf.look(alloc, key);
        let added = shelf.count() - before;
        self.lock.give(&mut pass.place, shelf, added);
        answer
    }

    /// Stores the text under the key: one turn round one keep of the shelf. May wait for other callers.
    pub fn store<W: Wait>(
        &self,
        rt: &W,
        alloc: Global,
        pass: &mut CachePass<D, S>,
        key: &[u8],
        text: &[u8],
    ) -> Result<Kept, AllocError>
        requires pass { IsAt self.now.lock.table.shared.table_id pass.old.place.seat }
        requires key { S.keys key.now }
        requires made { D.fits key.now text.now }
        ensures pass { IsAt self.now.lock.table.shared.table_id pass.new.place.seat }

        // What it had seen begins the history that its one turn found, to which this turn added one record, or none where
        // memory was refused. It has seen all of that then.
        ensures turn { TookOneTurn pass.old.place.seat pass.new.place.seat }
        ensures seen { IsPrefix (seen_by pass.old.place.seat) (seen_by pass.new.place.seat) }
        ensures stored { IfOk result (Stored S.dir key.now text.now (before_turn pass.new.place.seat) (seen_by pass.new.place.seat)) }
        ensures err { OnErr result (seen_by pass.new.place.seat ≡ before_turn pass.new.place.seat) }

        // It has seen an entry of the key.
        ensures known { IfOk result (λ kept. text_of key.now (seen_by pass.new.place.seat) ≢ None) }
    {
        let mut shelf = self.lock.take(rt, &mut pass.place);
        let before = shelf.count();
        let answer = shelf.keep(alloc, key, text);
        let added = shelf.count() - before;
        self.lock.give(&mut pass.place, shelf, added);
        answer
    }

    /// A new pass, which has seen as much. Waits for nobody.
    pub fn split(&self, pass: &mut CachePass<D, S>) -> CachePass<D, S>
        requires { IsAt self.now.lock.table.shared.table_id pass.old.place.seat }
        ensures pass { IsAt self.now.lock.table.shared.table_id pass.new.place.seat × (seen_by pass.new.place.seat ≡ seen_by pass.old.place.seat) }
        ensures new { IsAt self.now.lock.table.shared.table_id result.place.seat × (seen_by result.place.seat ≡ seen_by pass.old.place.seat) }
    {
        CachePass {
            place: self.lock.split(&mut pass.place),
        }
    }

    /// The pass takes the other in, and has then seen the longer of the two lists, which the shorter begins. Takes no
    /// memory and waits for nobody.
    pub fn join(&self, pass: &mut CachePass<D, S>, other: CachePass<D, S>)
        requires pass { IsAt self.now.lock.table.shared.table_id pass.old.place.seat }
        requires other { IsAt self.now.lock.table.shared.table_id other.place.seat }
        ensures pass { IsAt self.now.lock.table.shared.table_id pass.new.place.seat }
        ensures longer { seen_by pass.new.place.seat ≡ longer (seen_by pass.old.place.seat) (seen_by other.place.seat) }
        ensures this { IsPrefix (seen_by pass.old.place.seat) (seen_by pass.new.place.seat) }
        ensures that { IsPrefix (seen_by other.place.seat) (seen_by pass.new.place.seat) }
    {
        let CachePass { place } = other;
        self.lock.join(&mut pass.place, place);
    }

    /// Takes a last turn, and hands the disk out. What the pass had seen begins the history of the cache, which says of
    /// the disk what a shelf keeps. Takes no memory; may wait for other callers.
    pub fn close<W: Wait>(self, rt: &W, pass: CachePass<D, S>) -> D
        requires { IsAt self.lock.table.shared.table_id pass.place.seat }
        ensures { (history : List Record) × IsPrefix (seen_by pass.place.seat) history
            × ∥ IsShelved D.fits S.keys S.dir S.faults S.files (D.faults result) (D.held result) history ∥₁ }
    {
        let SharedCache { lock } = self;
        let CachePass { place } = pass;
        lock.close(rt, place).into_disk()
    }
}
