//! What is left of a word when every letter is dropped that can be dropped without losing a subsequence of at most `k`
//! letters.

ghost use Rattle.std.specs.Prelude.{◌≡◌, ◌*◌, ◌≤◌, [], length, drop};
ghost use Rattle.std.proofs.Math.Decide.{ℕ_discrete};
ghost use Rattle.words.specs.Letters.{Before};
ghost use Rattle.words.specs.Steps.{lefts, Below, Kept, Thinned};

use crate::both::Words;
use crate::ranks::number;
use crate::vector::Coordinates;
use letters::OrderedLetter;

/// The letters of a word that are needed for its subsequences of at most `k` letters. While they are looked for, the parts
/// are as long as the word.
#[derive(Drop)]
pub(crate) struct Lean<'a> {
    /// The greatest length of the subsequences.
    pub k: u16,
    /// Where each letter stands in the word.
    pub places: &'a mut [u32],
    /// Its rank.
    pub ranks: &'a mut [u32],
    /// Its left coordinate among the needed ones.
    pub before: &'a mut [u32],
    /// Its right coordinate among them.
    pub behind: &'a mut [u32],
    ghost long: { (length ranks.now ≡ length places.now) × (length before.now ≡ length places.now) × (length behind.now ≡ length places.now) },
}

impl<'a> Lean<'a> {
    /// Goes over a word of ranks from the last letter to the first, and keeps those that are needed: with the left
    /// coordinate in the word and the right one in what was kept, they have a sum of at most `k + 1`. The places, the ranks
    /// and the right coordinates of what is kept fill their parts from the end; gives where they begin.
    fn keep_needed(&mut self, coordinates: &mut Coordinates) -> usize
        requires room { length self.old.places.now ≡ length coordinates.old.word.now }
        ensures k { self.new.k ≡ self.old.k }
        ensures room { length self.new.places.now ≡ length coordinates.old.word.now }
        ensures same { coordinates.new.word.now ≡ coordinates.old.word.now }
        ensures within { result ≤ length coordinates.old.word.now }
        ensures lean { Kept self.old.k coordinates.old.word.now (drop result self.new.places.now) (drop result self.new.ranks.now) (drop result self.new.behind.now) }
    {
        coordinates.write_lefts(self.before);
        coordinates.clear();
        let mut first = coordinates.word.len();
        // By index, since the parts are filled from the end, and more slowly than the word is read.
        for i in (0..coordinates.word.len()).rev() {
            if self.before[i] + coordinates.at(i) <= u32::from(self.k) + 1 {
                first -= 1;
                self.places[first] = i as u32;
                self.ranks[first] = coordinates.word[i];
                self.behind[first] = coordinates.put_in_front(i);
            }
        }
        first
    }

    /// Finds the letters of a word of ranks that are needed, and the left coordinates that they have among themselves. The
    /// vector has a number for each rank.
    fn thin(mut self, word: &[u32], vector: &mut [u32]) -> Lean<'a>
        requires few { length word.now ≤ 4096 }
        requires ranks { Below (length vector.old) word.now }
        requires room { length self.places.now ≡ length word.now }
        ensures k { result.k ≡ self.entry.k }
        ensures lean { Kept self.entry.k word.now result.places.now result.ranks.now result.behind.now }
        ensures left { result.before.now ≡ lefts ℕ_discrete [] result.ranks.now }
    {
        let mut all = Coordinates {
            word,
            ahead: vector,
        };
        let first = self.keep_needed(&mut all);
        let Coordinates { ahead, .. } = all;
        let Lean {
            k,
            places,
            ranks,
            before,
            behind,
        } = self;
        let n = places.len();
        let before = &mut before[..n - first];
        let mut kept = Coordinates {
            word: &ranks[first..n],
            ahead: &mut *ahead,
        };
        kept.write_lefts(before);
        Lean {
            k,
            places: &mut places[first..n],
            ranks: &mut ranks[first..n],
            before,
            behind: &mut behind[first..n],
        }
    }

    /// The places of the letters. (A method, since the check does not cover a loan of this field as `&` at its caller.)
    pub(crate) fn places(&self) -> &[u32]
        ensures { result.now ≡ self.now.places.now }
    {
        self.places
    }
}

/// Finds the letters of a word that are needed, in parts of the scratch.
pub(crate) fn thin_out<'a, L: OrderedLetter>(word: &[L], k: u16, scratch: &'a mut [u32]) -> Lean<'a>
    requires few { length word.now ≤ 4096 }
    requires spare { 7 * length word.now ≤ length scratch.old }
    ensures k { result.k ≡ k }
    ensures lean { Thinned (Before L.order) k word.now result.places.now result.ranks.now result.before.now result.behind.now }
{
    let n = word.len();
    let (places, rest) = scratch.split_at_mut(n);
    let (ranks, rest) = rest.split_at_mut(n);
    let (before, rest) = rest.split_at_mut(n);
    let (behind, rest) = rest.split_at_mut(n);
    let (listed, rest) = rest.split_at_mut(n);
    let (numbers, rest) = rest.split_at_mut(n);
    let words = Words {
        first: word,
        second: &word[..0],
    };
    let letters = number(&words, listed, numbers, &mut rest[..0]).len();
    let room = Lean {
        k,
        places,
        ranks,
        before,
        behind,
    };
    room.thin(numbers, &mut rest[..letters])
}
