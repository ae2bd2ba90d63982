//! Words of 64 members, and operations on rows of them.
ghost use Rattle.std.specs.Prelude.{◌≡◌, ℕ, ◌+◌, ◌/◌, ◌%◌, ◌<◌, ◌≤◌, length, slice_index, bit_and, bit_or};
ghost use Rattle.lto_sets.specs.Row.{words_for};

// How many members a word holds.
pub const WIDTH: u32 = 64;

// How many words a row of this size has.
pub fn word_count(size: u32) -> usize
    ensures { result ≡ words_for size }
{
    size.div_ceil(WIDTH) as usize
}

// The members of both rows.
pub fn meet_words(words: &mut [u64], others: &[u64])
    requires { length words.old ≡ length others.now }
    ensures { (i : ℕ) → slice_index words.new i ≡ bit_and (slice_index words.old i) (slice_index others.now i) }
{
    for (i, word) in words.iter_mut().enumerate() {
        *word &= others[i];
    }
}

// The members of either row.
pub fn join_words(words: &mut [u64], others: &[u64])
    requires { length words.old ≡ length others.now }
    ensures { (i : ℕ) → slice_index words.new i ≡ bit_or (slice_index words.old i) (slice_index others.now i) }
{
    for (i, word) in words.iter_mut().enumerate() {
        *word |= others[i];
    }
}
