//! The places of a word of ranks as the nodes of a tree. Read from right to left, the depths of the places (their right
//! coordinates) are those of the nodes in preorder: the place above a place is the first behind it that is no deeper.

ghost use Rattle.std.specs.Prelude.{◌≡◌, ℕ, suc, ◌+◌, ◌^◌, ◌<◌, ◌≤◌, length};
ghost use Rattle.std.proofs.Math.Decide.{ℕ_discrete};
ghost use Rattle.words.specs.Steps.{rights};
ghost use Rattle.words.specs.Places.{Sibling, depth as depth_of};
ghost use Rattle.words.specs.RowSteps.{Finds, held};
ghost use Rattle.words.specs.Paths.{Leads, Turn};

use std::marker::Model;

/// A word and the depths of its places. A clause sees the word.
#[derive(Drop)]
pub(crate) struct Tree<'w, 't> {
    word: &'w [u32],
    depths: &'t [u32],
}

impl<'w, 't> Model for Tree<'w, 't> {
    ghost use Rattle.std.specs.Prelude.{ℕ, List};

    ghost Value = { List ℕ };

    ghost use Rattle.words.specs.Trees.{Grown};

    ghost view = { λ t. t.word.now };

    ghost invariant = { Grown };
}

impl<'w, 't> Tree<'w, 't> {
    /// A word with its depths.
    pub(crate) fn new(word: &'w [u32], depths: &'t [u32]) -> Tree<'w, 't>
        requires few { length word.now ≤ 4096 }
        requires depths { depths.now ≡ rights ℕ_discrete word.now }
        ensures { result ≡ word.now }
    {
        Tree { word, depths }
    }

    /// The number of places.
    pub(crate) fn len(&self) -> usize
        ensures result { result ≡ length self.now }
        ensures few { length self.now ≤ 4096 }
    {
        self.word.len()
    }

    /// The depth of a place.
    pub(crate) fn depth(&self, place: usize) -> u32
        requires { place < length self.now }
        ensures { result ≡ depth_of ℕ_discrete self.now place }
    {
        let depths = self.depths;
        depths[place]
    }

    /// The place right before another, if it has this depth.
    pub(crate) fn before(&self, place: usize, depth: u32) -> Option<usize>
        requires { place ≤ length self.now }
        ensures { Finds (λ j. (suc j ≡ place) × (depth_of ℕ_discrete self.now j ≡ depth)) result }
    {
        let depths = self.depths;
        let before = place.checked_sub(1)?;
        (depths[before] == depth).then_some(before)
    }
}

/// The places above a place that was reached, for each depth up to its own the latest.
#[derive(Drop)]
pub(crate) struct Path<'a> {
    places: &'a mut [u32],
    depth: u32,
}

impl<'a> Path<'a> {
    /// Stands behind the last place of a word.
    pub(crate) fn start(tree: &Tree, places: &'a mut [u32]) -> Path<'a>
        requires { length tree.now < length places.old }
        ensures { Leads tree.now (length tree.now) result }
    {
        places[0] = tree.len() as u32;
        Path { places, depth: 0 }
    }

    /// Goes one place to the left, to `place`. Gives the place above it if that is as deep; else it is the next place.
    pub(crate) fn step(&mut self, tree: &Tree, place: usize) -> Option<usize>
        requires inside { place < length tree.now }
        requires leads { Leads tree.now (place + 1) self.old }
        ensures leads { Leads tree.now place self.new }
        ensures above { Turn tree.now place result }
    {
        let depth = tree.depth(place);
        let above = self.places[depth as usize] as usize;
        let as_deep = depth <= self.depth;
        self.places[depth as usize] = place as u32;
        self.depth = depth;
        as_deep.then_some(above)
    }
}

/// The place for which memory holds a number.
pub(crate) fn place_at(number: u32) -> Option<usize>
    ensures { number ≡ held result }
{
    number.checked_sub(1).map(|place| place as usize)
}

/// The number that memory holds for a place: one more, and 0 for none, since the scratch is lent as 32-bit numbers.
pub(crate) fn number_of(place: Option<usize>) -> u32
    requires { held place < 2 ^ 32 }
    ensures { result ≡ held place }
{
    place.map_or(0, |place| place as u32 + 1)
}

/// A tree with the siblings of its places: the next place before a place that is no deeper, if it is as deep. A clause
/// sees the word.
#[derive(Drop)]
pub(crate) struct SiblingTree<'w, 't, 's> {
    tree: Tree<'w, 't>,
    /// One more than the sibling, or 0 if there is none: the scratch is lent as 32-bit numbers.
    siblings: &'s [u32],
}

impl<'w, 't, 's> Model for SiblingTree<'w, 't, 's> {
    ghost use Rattle.std.specs.Prelude.{ℕ, List};

    ghost Value = { List ℕ };

    ghost use Rattle.words.specs.SiblingTrees.{Linked};

    ghost view = { λ t. t.tree };

    ghost invariant = { Linked };
}

impl<'w, 't, 's> SiblingTree<'w, 't, 's> {
    /// Finds the siblings.
    pub(crate) fn new(
        tree: Tree<'w, 't>,
        stack: &mut [u32],
        siblings: &'s mut [u32],
    ) -> SiblingTree<'w, 't, 's>
        requires stack { length tree < length stack.old }
        requires room { length tree < length siblings.old }
        ensures { result ≡ tree.entry }
    {
        siblings.fill(0);
        let mut path = Path::start(&tree, stack);
        for place in (0..tree.len()).rev() {
            if let Some(above) = path.step(&tree, place) {
                siblings[above] = number_of(Some(place));
            }
        }
        SiblingTree { tree, siblings }
    }

    /// The number of places.
    pub(crate) fn len(&self) -> usize
        ensures result { result ≡ length self.now }
        ensures few { length self.now ≤ 4096 }
    {
        self.tree.len()
    }

    /// The sibling of a place.
    pub(crate) fn sibling(&self, place: usize) -> Option<usize>
        requires { place ≤ length self.now }
        ensures { Finds (Sibling ℕ_discrete self.now place) result }
    {
        let siblings = self.siblings;
        place_at(siblings[place])
    }

    /// The child of a place that comes next, if it has this depth.
    pub(crate) fn child(&self, place: usize, depth: u32) -> Option<usize>
        requires { place ≤ length self.now }
        ensures { Finds (λ j. (suc j ≡ place) × (depth_of ℕ_discrete self.now j ≡ depth)) result }
    {
        self.tree.before(place, depth)
    }
}
