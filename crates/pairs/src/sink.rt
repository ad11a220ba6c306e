//! Where the lines of a run go.

ghost use Rattle.std.specs.Prelude.{◌≡◌, ℕ, Bool, List, ◌++◌, is_ok, if◌then◌else◌};

use std::io;

/// Takes lines, one at a time.
// A trait and no closure: a call of a closure has to be asked for by a `requires`, and no public call here has one.
pub trait Sink {
    /// Holds of the sink before, a line that it was given, whether it took the line, and the sink after.
    ghost took: { Self → List ℕ → Bool → Self → Type 0 };

    /// Takes the line, or fails.
    fn take(&mut self, line: &[u8]) -> io::Result<()>
        ensures { took self.old line.now (is_ok result) self.new };
}

/// Bytes in memory take a line at their end.
impl Sink for Vec<u8> {
    ghost took = { λ before line taken after. after.items ≡ (if taken then before.items ++ line else before.items) };

    fn take(&mut self, line: &[u8]) -> io::Result<()> {
        self.extend_from_slice(line)?;
        Ok(())
    }
}
