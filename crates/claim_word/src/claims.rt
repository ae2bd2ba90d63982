//! The word, the passes that draw from it, and the five calls.
ghost use Rattle.std.specs.Prelude.{◌≡◌, ◌+◌, ◌<◌, ◌≤◌, [], length};

use crate::rule::{Draw, Hands, Number, Word};
use crate::view::Draws;
use atomic_table::{Seat, Table};
use std::alloc::{AllocError, Global};

/// The atomic words of a table: the next number, and a caller bit for each of up to 65 passes.
const WORDS: usize = 66;

/// The place of the next number. The bit of the pass b stands at place b + 1.
const NEXT: usize = 0;

/// A word from which up to `callers` passes draw the numbers below `limit`.
///
/// It is shared by reference; dropping it without [`Claims::close`] is allowed.
#[derive(Drop)]
pub struct Claims {
    table: Table<(), Draws, (u32, u32), Word, Global>,
    /// The numbers below it are drawn.
    pub limit: u32,
    /// At most so many passes are made, from 1 to 65.
    pub callers: u32,
    ghost key: { table.shared.key ≡ (limit, callers) },
    ghost wide: { (table.shared.table_id.words ≡ 66) × (table.shared.table_id.slots ≡ 0) },
    ghost few: { (0 < callers) × (callers ≤ 65) },
}

/// A handle: the right of one caller to draw from a word, and what it has drawn.
///
/// At run time it is one flag: whether it has met the end.
#[derive(Drop)]
pub struct ClaimPass {
    seat: Seat<(), Draws>,
    ended: bool,
    ghost same: { ended ≡ seat.me.0.ended },
    ghost holds_one: { 0 < length seat.me.0.bits },
    ghost no_slot: { seat.me.1 ≡ [] },
}

/// As many passes were made as the word has callers.
#[derive(Debug, Drop)]
pub struct Full;

impl Claims {
    ghost use Rattle.std.specs.Prelude.{ℕ, true, false, min, IfOk, IfSome, MatchResult, MatchOption, None};
    ghost use Rattle.claim_word.specs.Counting.{EachOnceBelow};
    ghost use Rattle.claim_word.specs.Views.{opening_draws, drew, met_end, knows, cut_from, new_pass, both_draws, HoldsAll};
    ghost use Rattle.claim_word.specs.Passes.{IsPassOf, IsSamePass, draws_of};

    /// A word at 0, and its first pass, which has drawn nothing. Refused for memory alone.
    pub fn new(alloc: Global, limit: u32, callers: u32) -> Result<(Claims, ClaimPass), AllocError>
        requires { (0 < callers) × (callers ≤ 65) }
        ensures word { IfOk result (λ r. (r.0.limit ≡ limit) × (r.0.callers ≡ callers)) }
        ensures pass { IfOk result (λ r. IsPassOf r.0 r.1 × (draws_of r.1 ≡ opening_draws limit)) }
    {
        let mut words = [0u64; WORDS];
        words[NEXT + 1] = 1;
        let (table, seat) = Table::of_words(alloc, &words, &(limit, callers))?;
        let claims = Claims {
            table,
            limit,
            callers,
        };
        Ok((claims, ClaimPass { seat, ended: false }))
    }

    /// Draws the next number, or `None` exactly where the word was at or past the limit at this
    /// step. A pass that has met the end gets `None` from then on, without a step.
    ///
    /// Takes no memory and waits for nobody.
    pub fn claim(&self, pass: &mut ClaimPass) -> Option<u32>
        requires { IsPassOf self.now pass.old }
        ensures pass { IsSamePass pass.old pass.new }

        // The pass is as before, but for the number or the end that this step found.
        ensures ended { (draws_of pass.old).ended ≡ true →
            (result ≡ None) × (draws_of pass.new ≡ draws_of pass.old) }
        ensures drawn { (draws_of pass.old).ended ≡ false → MatchOption result
            (draws_of pass.new ≡ met_end (draws_of pass.old))
            (λ k. (k < self.now.limit) × (draws_of pass.new ≡ drew (draws_of pass.old) k)) }
        ensures few { IfSome result (λ _. length (draws_of pass.new).numbers ≤ self.now.limit) }
    {
        if pass.ended {
            return None;
        }
        let found = self.table.shared.fetch_add::<Draw>(&mut pass.seat, NEXT, 1);
        if found < self.limit as u64 {
            Some(found as u32)
        } else {
            pass.ended = true;
            None
        }
    }

    /// Makes a further pass, which has drawn nothing, and has met the end where `pass` has. `Full`
    /// exactly where `callers` passes were made.
    ///
    /// Takes no memory and waits for nobody: it sets the first caller bit that is clear.
    pub fn split(&self, pass: &mut ClaimPass) -> Result<ClaimPass, Full>
        requires { IsPassOf self.now pass.old }
        ensures pass { IsSamePass pass.old pass.new }

        // The new one is the pass b, before which b passes were made.
        ensures made { MatchResult result
            (λ new. IsPassOf self.now new × ((b : ℕ) × (b < self.now.callers)
            × (draws_of pass.new ≡ cut_from (draws_of pass.old) b)
            × (draws_of new ≡ new_pass (draws_of pass.old) b)))
            (λ _. draws_of pass.new ≡ knows (draws_of pass.old) self.now.callers) }
    {
        for bit in 0..self.callers {
            let place = bit as usize + 1;
            let found = self
                .table
                .shared
                .fetch_or::<Number>(&mut pass.seat, place, 1);
            if found == 0 {
                let seat = self.table.shared.split_seat::<Hands>(&mut pass.seat);
                return Ok(ClaimPass {
                    seat,
                    ended: pass.ended,
                });
            }
        }
        Err(Full)
    }

    /// Takes another pass of the word in: its numbers follow those of `pass`, and where it has met
    /// the end, so has `pass`.
    ///
    /// Takes no memory and waits for nobody.
    pub fn join(&self, pass: &mut ClaimPass, other: ClaimPass)
        requires pass { IsPassOf self.now pass.old }
        requires other { IsPassOf self.now other }
        ensures pass { IsSamePass pass.old pass.new }
        ensures both { draws_of pass.new ≡ both_draws (draws_of pass.old) (draws_of other) }
    {
        let ClaimPass { seat, ended } = other;
        self.table.shared.join_seat::<Hands>(&mut pass.seat, seat);
        pass.ended = pass.ended || ended;
    }

    /// Ends the word and answers what it was: the number of all draws that took a step.
    ///
    /// A pass that holds each pass that it knows of holds all that were made. Its numbers are then
    /// those below the smaller of word and limit, each once. Takes no memory and waits for nobody.
    pub fn close(self, pass: ClaimPass) -> u64
        requires { IsPassOf self pass }
        ensures drawn { HoldsAll (draws_of pass) →
            EachOnceBelow (min result self.limit) (draws_of pass).numbers }
        ensures word { HoldsAll (draws_of pass) →
            result ≡ length (draws_of pass).numbers + (draws_of pass).overruns }

        // Its bits are those of all passes that were made: `callers`, where a split was refused.
        ensures seen { HoldsAll (draws_of pass) →
            (draws_of pass).seen ≤ length (draws_of pass).bits }
        ensures few { HoldsAll (draws_of pass) → length (draws_of pass).bits ≤ self.callers }

        // These hold at each pass, whatever it holds.
        ensures ended { (draws_of pass).ended ≡ true → self.limit ≤ result }
        ensures least { length (draws_of pass).numbers + (draws_of pass).overruns ≤ result }
        ensures most { result ≤ self.limit + self.callers }
    {
        let Claims {
            table,
            limit: _,
            callers: _,
        } = self;
        let ClaimPass { seat, ended: _ } = pass;
        let closed = table.close_with(seat);
        let word = closed.word(NEXT);
        closed.free();
        word
    }
}
