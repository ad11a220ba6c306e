//! The first telling row of two words of ranks, by the staircase.

ghost use Rattle.std.specs.Prelude.{◌≡◌, ℕ, ◌+◌, ◌*◌, ◌<◌, ◌≤◌, length};
ghost use Rattle.std.proofs.Math.Decide.{ℕ_discrete};
ghost use Rattle.words.specs.Steps.{rights, Below};
ghost use Rattle.words.specs.RowSteps.{Partners};
ghost use Rattle.words.specs.Stretches.{Rows};
ghost use Rattle.words.specs.Rows.{ToldRanks};

use crate::climb::Climb;
use crate::pairing::find_partners;
use crate::stairs::Pair;
use crate::stretches::{LEVELS, Stretches, write_table};
use crate::told::Telling;
use crate::tree::{SiblingTree, Tree};
use crate::vector::Coordinates;

/// Sets the places of two words against each other: the depths of the left word, the table of the right word, and the
/// partners. The vector has a place for each letter.
// Plain slices: where `tell` makes the trees and stretches first, the borrow checker does not cover it.
fn pair_words(
    left: &[u32],
    right: &[u32],
    vector: &mut [u32],
    depths: &mut [u32],
    table: &mut [u32],
    partners: &mut [u32],
    scratch: &mut [u32],
)
    requires few { length left.now ≤ 4096 }
    requires shorter { length right.now ≤ length left.now }
    requires left_letters { Below (length vector.old) left.now }
    requires right_letters { Below (length vector.old) right.now }
    requires depth_room { length depths.old ≡ length left.now }
    requires table_room { 13 * length right.now ≤ length table.old }
    requires partner_room { length left.now < length partners.old }
    requires room { length left.now + length right.now + 2 ≤ length scratch.old }
    ensures depths { depths.new ≡ rights ℕ_discrete left.now }
    ensures rows { Rows right.now 13 table.new }
    ensures partners { Partners left.now right.now partners.new }
{
    Coordinates {
        word: left,
        ahead: vector,
    }
    .write_rights(depths);
    write_table(right, vector, table);
    let (stack, siblings) = scratch.split_at_mut(left.len() + 1);
    let own = Tree::new(left, depths);
    let other = SiblingTree::new(Tree::new(right, &table[..right.len()]), stack, siblings);
    find_partners(&own, &other, stack, partners);
}

/// Writes the first telling row of two words of ranks at the start of `row`, and gives its length and its side; none if
/// the words are equal.
pub(crate) fn tell<'a>(
    left: &'a [u32],
    right: &'a [u32],
    letters: usize,
    row: &mut [u32],
    scratch: &'a mut [u32],
) -> Option<Telling>
    requires few { length left.now ≤ 4096 }
    requires shorter { length right.now ≤ length left.now }
    requires few_letters { letters ≤ 8192 }
    requires left_letters { Below letters left.now }
    requires right_letters { Below letters right.now }
    requires row_room { length right.now < length row.old }
    requires room { 5 * length left.now + 14 * length right.now + 3 * letters + 3 ≤ length scratch.old }
    ensures { ToldRanks left.now right.now row.new result }
{
    let (depths, rest) = scratch.split_at_mut(left.len());
    let (table, rest) = rest.split_at_mut(LEVELS * right.len());
    let (partners, rest) = rest.split_at_mut(left.len() + 1);
    let (says, rest) = rest.split_at_mut(letters);
    pair_words(left, right, says, depths, table, partners, rest);
    let pair = Pair::start(left, Stretches::new(right, table), letters, rest);
    let mut climb = Climb::start(pair, says);
    climb.climb(depths, partners);
    let degree = climb.degree()?;
    Some(climb.into_pair().write_row(row, degree))
}
