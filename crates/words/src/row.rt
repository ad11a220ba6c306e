//! The first telling row of two words of ranks, letter by letter: the first letter is the smallest that says less than
//! their degree, and the rest is the first row of what follows there.

ghost use Rattle.std.specs.Prelude.{◌≡◌, ◌<◌, ◌≤◌, [], ◌∷◌, length, take};
ghost use Rattle.words.specs.Words.{FirstTelling};
ghost use Rattle.words.specs.Degrees.{Degree};
ghost use Rattle.words.specs.Reading.{end_part};
ghost use Rattle.words.specs.RowSteps.{cap};
ghost use Rattle.words.specs.Rows.{FirstLetter};
ghost use Rattle.words.specs.Separating.{TellsOn};

use crate::stairs::Pair;
use crate::told::{Side, Telling};

impl<'a> Pair<'a> {
    /// The smallest letter that says less than the degree of the end parts that were reached.
    fn first_letter(&self, degree: u32) -> usize
        requires differ { degree < cap self.now.right.word }
        requires degree { Degree (cap self.now.right.word) degree (end_part self.now.left) (end_part self.now.right) }
        ensures inside { result < self.now.left.letters }
        ensures few { result < 8192 }
        ensures first { FirstLetter (cap self.now.right.word) degree (end_part self.now.left) (end_part self.now.right) result }
    {
        let letters = self.letters();
        // A loop: `find` over the letters takes up to half as long again.
        for letter in 0..letters {
            if self.say(letter) < degree {
                return letter;
            }
        }
        // The degree is below the cap, so some letter says less.
        unreachable()
    }

    /// The side that has a letter that only one of the end parts has.
    fn side_of(&self, letter: usize) -> Side
        requires inside { letter < self.now.left.letters }
        requires first { FirstLetter (cap self.now.right.word) 1 (end_part self.now.left) (end_part self.now.right) letter }
        ensures { TellsOn result (letter ∷ []) (end_part self.now.left) (end_part self.now.right) }
    {
        if self.left_has(letter) {
            Side::Left
        } else {
            Side::Right
        }
    }

    /// Writes the first row of two words of this degree, which were read to their starts, and gives its length and the
    /// side that has it.
    pub(crate) fn write_row(&mut self, row: &mut [u32], degree: u32) -> Telling
        requires left_start { self.old.left.at ≡ 0 }
        requires right_start { self.old.right.at ≡ 0 }
        requires some { 0 < degree }
        requires differ { degree < cap self.old.right.word }
        requires degree { Degree (cap self.old.right.word) degree self.old.left.word self.old.right.word }
        requires room { degree ≤ length row.old }
        ensures length { result.length ≡ degree }
        ensures first { FirstTelling ◌<◌ (take degree row.new) self.old.left.word self.old.right.word }
        ensures side { TellsOn result.side (take degree row.new) self.old.left.word self.old.right.word }
    {
        let last = degree as usize - 1;
        for at in 0..last {
            let letter = self.first_letter(degree - at as u32);
            row[at] = letter as u32;
            self.go_behind(letter);
        }
        let letter = self.first_letter(1);
        row[last] = letter as u32;
        Telling {
            length: degree as usize,
            side: self.side_of(letter),
        }
    }
}
