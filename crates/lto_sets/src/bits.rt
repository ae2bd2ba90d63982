//! Sets of numbers below a size.
ghost use Rattle.std.specs.Prelude.{◌≡◌, ◌<◌, ◌↔◌, length, replicate, slice_set, slice_index_or, IfOk, IsTrue};
ghost use Rattle.lto_sets.specs.Sets.{meet_of, join_of, contains};

use crate::word::{WIDTH, join_words, meet_words, word_count};
use std::alloc::{AllocError, Global};
use std::marker::Model;

/// A set of numbers below a size, as a row of bits.
///
/// A clause sees it as a list of booleans, which says of each number below the size whether it is
/// a member.
#[derive(Drop)]
pub struct Bits {
    size: u32,
    words: Vec<u64>,
}

impl Model for Bits {
    ghost use Rattle.std.specs.Prelude.{List, Bool, true, false};
    ghost use Rattle.lto_sets.specs.Row.{row_of, IsRow};

    ghost Value = { List Bool };

    ghost view = { λ s. row_of s.size s.words.items };

    ghost invariant = { λ s. IsRow s.size s.words.items };
}

impl Bits {
    ghost use Rattle.std.specs.Prelude.{true, false};

    /// The empty set of numbers below a size.
    ///
    /// The only error is want of memory.
    pub fn new(alloc: Global, size: u32) -> Result<Bits, AllocError>
        ensures { IfOk result (λ s. s ≡ replicate size false) }
    {
        let words = vec![in alloc; 0; word_count(size)]?;
        Ok(Bits { size, words })
    }

    /// The set of all numbers below a size.
    ///
    /// The only error is want of memory.
    pub fn full(alloc: Global, size: u32) -> Result<Bits, AllocError>
        ensures { IfOk result (λ s. s ≡ replicate size true) }
    {
        let mut words = vec![in alloc; u64::MAX; word_count(size)]?;
        let rest = size % WIDTH;
        if rest > 0 {
            words[(size / WIDTH) as usize] = u64::MAX >> (WIDTH - rest);
        }
        Ok(Bits { size, words })
    }

    /// How many numbers may be members.
    pub fn size(&self) -> u32
        ensures { result ≡ length self.now }
    {
        self.size
    }

    /// Whether a number is a member. It is below the size.
    pub fn has(&self, member: u32) -> bool
        requires { member < length self.now }
        ensures { result ≡ contains self.now member }
    {
        let word = self.words[(member / WIDTH) as usize];
        (word >> (member % WIDTH)) & 1 == 1
    }

    /// Adds a number below the size.
    pub fn with(&mut self, member: u32)
        requires { member < length self.old }
        ensures { self.new ≡ slice_set self.old member true }
    {
        let word = &mut self.words[(member / WIDTH) as usize];
        *word |= 1 << (member % WIDTH);
    }

    /// Takes out a number below the size.
    pub fn without(&mut self, member: u32)
        requires { member < length self.old }
        ensures { self.new ≡ slice_set self.old member false }
    {
        let word = &mut self.words[(member / WIDTH) as usize];
        *word &= !(1 << (member % WIDTH));
    }

    /// Keeps the members that another set of the same size has too.
    pub fn meet(&mut self, other: &Bits)
        requires { length self.old ≡ length other.now }
        ensures { self.new ≡ meet_of self.old other.now }
    {
        meet_words(&mut self.words, &other.words);
    }

    /// Adds the members of another set of the same size.
    pub fn join(&mut self, other: &Bits)
        requires { length self.old ≡ length other.now }
        ensures { self.new ≡ join_of self.old other.now }
    {
        join_words(&mut self.words, &other.words);
    }

    /// Whether another set of the same size has the same members.
    pub fn equal(&self, other: &Bits) -> bool
        requires { length self.now ≡ length other.now }
        ensures { IsTrue result ↔ (self.now ≡ other.now) }
    {
        self.words.as_slice() == other.words.as_slice()
    }

    /// Becomes another set of the same size.
    pub fn copy_from(&mut self, other: &Bits)
        requires { length self.old ≡ length other.now }
        ensures { self.new ≡ other.now }
    {
        self.words.copy_from_slice(&other.words);
    }
}
