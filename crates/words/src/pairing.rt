//! Partners: how the places of two words of ranks are set against each other. They are reached by the same steps in the
//! trees of both words.

ghost use Rattle.std.specs.Prelude.{◌+◌, ◌<◌, length};
ghost use Rattle.std.proofs.Math.Decide.{ℕ_discrete};
ghost use Rattle.words.specs.Places.{Paired};
ghost use Rattle.words.specs.Paths.{Turn};
ghost use Rattle.words.specs.RowSteps.{Finds, Partners, PartnersFrom};

use crate::tree::{Path, SiblingTree, Tree, number_of, place_at};

/// The partner of a place in another tree, from the partner of the place above it.
fn partner(
    own: &Tree,
    other: &SiblingTree,
    place: usize,
    above: Option<usize>,
    partners: &[u32],
) -> Option<usize>
    requires inside { place < length own.now }
    requires above { Turn own.now place above }
    requires partners { PartnersFrom own.now other.now (place + 1) partners.now }
    ensures { Finds (Paired ℕ_discrete own.now other.now place) result }
{
    match above {
        Some(above) => other.sibling(place_at(partners[above])?),
        None => other.child(place_at(partners[place + 1])?, own.depth(place)),
    }
}

/// Finds for each place of a tree its partner in another, and for the end of the one word the end of the other.
pub(crate) fn find_partners(
    own: &Tree,
    other: &SiblingTree,
    stack: &mut [u32],
    partners: &mut [u32],
)
    requires stack { length own.now < length stack.old }
    requires room { length own.now < length partners.old }
    ensures { Partners own.now other.now partners.new }
{
    partners[own.len()] = number_of(Some(other.len()));
    let mut path = Path::start(own, stack);
    for place in (0..own.len()).rev() {
        let above = path.step(own, place);
        partners[place] = number_of(partner(own, other, place, above, partners));
    }
}
