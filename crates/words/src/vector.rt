//! The coordinates of the places of a word whose letters are ranks, plain numbers below the number of letters. One
//! vector has for each rank its coordinate in front of what was seen of the word, and each place lowers all of it.

ghost use Rattle.std.specs.Prelude.{◌≡◌, ℕ, ◌+◌, ◌^◌, ◌<◌, min, List, [], ◌∷◌, map, length, slice_index};
ghost use Rattle.std.proofs.Math.Decide.{ℕ_discrete};
ghost use Rattle.words.specs.Steps.{right, rights, lefts, Below, Ahead};

/// Lowers every number to at most `most`.
fn lower(vector: &mut [u32], most: u32)
    ensures { vector.new ≡ map (λ x. min x most) vector.old }
{
    for x in vector.iter_mut() {
        *x = (*x).min(most);
    }
}

/// A word of ranks that is gone over from one of its ends, and the vector for it.
#[derive(Drop)]
pub(crate) struct Coordinates<'w, 'v> {
    pub word: &'w [u32],
    /// For each rank its coordinate in front of what was seen of the word.
    pub ahead: &'v mut [u32],
    ghost ranks: { Below (length ahead.now) word.now },
    ghost few: { length word.now + 2 < 2 ^ 31 },
}

impl Coordinates<'_, '_> {
    /// Nothing was seen yet: every rank has the coordinate 1.
    pub(crate) fn clear(&mut self)
        ensures same { self.new.word.now ≡ self.old.word.now }
        ensures ahead { Ahead self.new.ahead.now [] }
    {
        self.ahead.fill(1);
    }

    /// The coordinate that the letter at the place `i` has in front of what was seen.
    pub(crate) fn at(&self, i: usize) -> u32
        requires within { i < length self.now.word.now }
        ensures { result ≡ slice_index self.now.ahead.now (slice_index self.now.word.now i) }
    {
        self.ahead[self.word[i] as usize]
    }

    /// Puts the letter at the place `i` in front of what was seen, and gives the coordinate that it has there.
    pub(crate) fn put_in_front(&mut self, i: usize) -> u32
        requires within { i < length self.old.word.now }
        requires small { slice_index self.old.ahead.now (slice_index self.old.word.now i) + 1 < 2 ^ 32 }
        ensures same { self.new.word.now ≡ self.old.word.now }
        ensures ahead { (q : List ℕ) → Ahead self.old.ahead.now q → (result ≡ right ℕ_discrete (slice_index self.old.word.now i) q) × Ahead self.new.ahead.now (slice_index self.old.word.now i ∷ q) }
    {
        let rank = self.word[i] as usize;
        let coordinate = self.ahead[rank];
        lower(self.ahead, coordinate + 1);
        self.ahead[rank] = coordinate + 1;
        coordinate
    }

    /// Writes the right coordinates of the word.
    pub(crate) fn write_rights(&mut self, out: &mut [u32])
        requires room { length out.old ≡ length self.old.word.now }
        ensures same { self.new.word.now ≡ self.old.word.now }
        ensures rights { out.new ≡ rights ℕ_discrete self.old.word.now }
    {
        self.clear();
        // By index, since nothing is known of what is written through `out.iter_mut().enumerate().rev()`.
        for i in (0..self.word.len()).rev() {
            out[i] = self.put_in_front(i);
        }
    }

    /// Writes the left coordinates of the word: they are the right ones of the reversed word.
    // Apart from `write_rights`: one function over the order of the places would need a contract about an iterator's order.
    pub(crate) fn write_lefts(&mut self, out: &mut [u32])
        requires room { length out.old ≡ length self.old.word.now }
        ensures same { self.new.word.now ≡ self.old.word.now }
        ensures lefts { out.new ≡ lefts ℕ_discrete [] self.old.word.now }
    {
        self.clear();
        for (i, coordinate) in out.iter_mut().enumerate() {
            *coordinate = self.put_in_front(i);
        }
    }
}
