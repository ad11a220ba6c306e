//! Up to which level two end parts of one word agree: the least coordinate of the places between them. A sparse table has
//! it for stretches of 1, 2, 4 and so on places, so that two of its numbers answer for any stretch.

ghost use Rattle.std.specs.Prelude.{◌≡◌, ℕ, ◌+◌, ◌*◌, ◌^◌, ◌<◌, ◌≤◌, min, length, drop, slice_index, slice_index_or};
ghost use Rattle.std.proofs.Math.Decide.{ℕ_discrete};
ghost use Rattle.words.specs.Steps.{rights, Below};
ghost use Rattle.words.specs.Degrees.{Degree};
ghost use Rattle.words.specs.RowSteps.{cap};
ghost use Rattle.words.specs.Stretches.{Rows};

use crate::vector::Coordinates;
use std::marker::Model;

/// The rows of the table: the last is for 4,096 places, which is as many as a word has.
pub(crate) const LEVELS: usize = 13;

/// Writes the row for `2 * size` places from the one for `size` places.
fn double(row: &[u32], size: usize, next: &mut [u32])
    requires large { length row.now + size < 2 ^ 64 }
    requires room { length next.old ≡ length row.now }
    ensures { (j : ℕ) → j < length row.now → slice_index next.new j ≡ min (slice_index row.now j) (slice_index_or row.now (j + size) (slice_index row.now j)) }
{
    for (j, here) in row.iter().enumerate() {
        next[j] = (*here).min(*row.get(j + size).unwrap_or(here));
    }
}

/// Fills the table of a word: the coordinates of the word are its first row, and each further row comes from the one
/// before.
pub(crate) fn write_table(word: &[u32], vector: &mut [u32], table: &mut [u32])
    requires few { length word.now ≤ 4096 }
    requires letters { Below (length vector.old) word.now }
    requires room { 13 * length word.now ≤ length table.old }
    ensures { Rows word.now 13 table.new }
{
    let width = word.len();
    Coordinates {
        word,
        ahead: vector,
    }
    .write_rights(&mut table[..width]);
    for level in 1..LEVELS {
        let (done, rest) = table.split_at_mut(level * width);
        double(
            &done[(level - 1) * width..],
            1 << (level - 1),
            &mut rest[..width],
        );
    }
}

/// A word with the table of its stretches. A clause sees the word.
#[derive(Drop)]
pub(crate) struct Stretches<'a> {
    word: &'a [u32],
    table: &'a [u32],
}

impl<'a> Model for Stretches<'a> {
    ghost use Rattle.std.specs.Prelude.{ℕ, List};

    ghost Value = { List ℕ };

    ghost use Rattle.words.specs.Stretches.{Filled};

    ghost view = { λ s. s.word.now };

    ghost invariant = { Filled };
}

impl<'a> Stretches<'a> {
    /// A word with its table.
    pub(crate) fn new(word: &'a [u32], table: &'a [u32]) -> Stretches<'a>
        requires few { length word.now ≤ 4096 }
        requires room { 13 * length word.now ≤ length table.now }
        requires rows { Rows word.now 13 table.now }
        ensures { result ≡ word.now }
    {
        Stretches { word, table }
    }

    /// The word.
    pub(crate) fn word(&self) -> &'a [u32]
        ensures { result.now ≡ self.now }
    {
        self.word
    }

    /// What degrees are counted up to.
    pub(crate) fn cap(&self) -> u32
        ensures { result ≡ cap self.now }
    {
        self.word.len() as u32 + 2
    }

    /// The coordinates of the places of the word.
    pub(crate) fn depths(&self) -> &'a [u32]
        ensures { result.now ≡ rights ℕ_discrete self.now }
    {
        &self.table[..self.word.len()]
    }

    /// The degree of the end parts at the two ends of a stretch that is not empty, by two stretches that cover it.
    // Not inlined, so that the search of a row's letters, which seldom comes here, stays a short loop.
    #[inline(never)]
    fn least(&self, from: usize, to: usize) -> u32
        requires some { from < to }
        requires inside { to ≤ length self.now }
        ensures { Degree (cap self.now) result (drop from self.now) (drop to self.now) }
    {
        let level = (to - from).ilog2();
        let row = level as usize * self.word.len();
        self.table[row + from].min(self.table[row + to - (1 << level)])
    }

    /// The degree of the end parts at two places.
    pub(crate) fn between(&self, here: usize, there: usize) -> u32
        requires first { here ≤ length self.now }
        requires second { there ≤ length self.now }
        ensures { Degree (cap self.now) result (drop here self.now) (drop there self.now) }
    {
        if here == there {
            return self.cap();
        }
        self.least(here.min(there), here.max(there))
    }
}
