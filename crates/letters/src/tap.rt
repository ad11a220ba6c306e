//! Taps: the letters of plates that are judged by where they were tapped and what note that gave.

ghost use Rattle.std.specs.Prelude.{◌≡◌, ◌++◌, Some, codes, decimal, Decides};
ghost use Rattle.std.specs.Fmt.{signed_decimal};
ghost use Rattle.letters.specs.declared.kind.Kind.TheVariants.{Taps};
ghost use Rattle.letters.specs.Taps.{TapNumbers, tap_at, tap_code, tap_of, tap_order};
ghost use Rattle.letters.specs.Orders.{not_after_chains};
ghost use Rattle.std.specs.Cmp.{int_cmp_total, nat_cmp_total, on_total, then_total};
ghost use Rattle.std.proofs.Common.{rules};

use crate::coded::CodedLetter;
use crate::kind::Kind;
use crate::ordered::OrderedLetter;
use std::cmp::Ordering;
use std::fmt;

/// The last zone.
const ZONES: u8 = 40;

/// The highest step; the lowest is as far below 0.
const STEP_LIMIT: i32 = 120;

/// Steps in a zone.
const STEPS: u32 = 241;

/// A tap, by its zone from 1 to 40 and its step from -120 to 120 (tens of cents).
#[derive(Clone, Copy, PartialEq, Eq, PartialOrd, Ord, Hash, Debug)]
pub struct Tap {
    zone: u8,
    step: i8,
}

impl Tap {
    /// The tap of this zone and step; none outside the ranges.
    pub fn new(zone: u8, step: i8) -> Option<Tap>
        ensures { result ≡ tap_at zone step }
    {
        are_tap_numbers(zone, step).then_some(Tap { zone, step })
    }

    pub fn zone(self) -> u8
        ensures { result ≡ self.zone }
    {
        self.zone
    }

    pub fn step(self) -> i8
        ensures { result ≡ self.step }
    {
        self.step
    }
}

fn are_tap_numbers(zone: u8, step: i8) -> bool
    ensures { Decides result (TapNumbers zone step) }
{
    (1..=ZONES).contains(&zone) && (-STEP_LIMIT..=STEP_LIMIT).contains(&i32::from(step))
}

/// A tap shows as zone and step, as `12:-35`.
impl fmt::Display for Tap {
    ghost output = { λ t. Some (decimal t.zone ++ (codes ":" ++ signed_decimal t.step)) };

    fn fmt<W: fmt::Write>(&self, f: &mut fmt::Formatter<W>) -> fmt::Result {
        let zone = self.zone;
        let step = self.step;
        write!(f, "{zone}:{step}")
    }
}

impl OrderedLetter for Tap {
    ghost order = { tap_order };

    ghost same = { Prim.search rules };

    ghost itself = { Prim.search rules };

    ghost flips = { Prim.search rules };

    ghost onward = { not_after_chains (then_total (on_total (λ t. t.zone) nat_cmp_total) (on_total (λ t. t.step) int_cmp_total)) };

    fn compare(self, other: Tap) -> Ordering {
        self.cmp(&other)
    }
}

impl CodedLetter for Tap {
    ghost kind = { Taps };

    ghost InRange = { λ t. TapNumbers t.zone t.step };

    ghost letter = { tap_of };

    ghost code = { tap_code };

    ghost bounded = { Prim.search rules };

    ghost decodes = { Prim.search rules };

    ghost encodes = { Prim.search rules };

    fn kind() -> Kind {
        Kind::Taps
    }

    fn in_range(self) -> bool {
        are_tap_numbers(self.zone, self.step)
    }

    fn from_code(number: u32) -> Option<Tap> {
        let step = (number % STEPS) as i32 - STEP_LIMIT;
        let zone = u8::try_from(number / STEPS + 1).ok()?;
        Tap::new(zone, step as i8)
    }

    fn code(self) -> u32 {
        let zones_before = u32::from(self.zone).saturating_sub(1);
        let step_index = (i32::from(self.step) + STEP_LIMIT).max(0);
        zones_before * STEPS + step_index as u32
    }
}
