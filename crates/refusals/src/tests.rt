//! A fault of one number.

ghost use Rattle.std.specs.Prelude.{ℕ};

use crate::fault::Fault;
use crate::refusal::Refusal;
use std::test::Fail;

/// A fault for trying the trait.
#[derive(Clone, Copy)]
struct Broken(usize);

impl Fault for Broken {
    ghost numbers = { λ f. (7, f.0) };

    fn refusal(self) -> Refusal {
        Refusal {
            number: 7,
            place: self.0,
        }
    }
}

#[test]
fn a_fault_has_a_number_and_a_place(rt: HostRuntime) -> Result<(), Fail> {
    let fault = Broken(12);
    assert_eq!(rt; fault.number(), 7);
    assert_eq!(rt; fault.place(), 12);
    let refusal = fault.refusal();
    let text = format!(in rt.alloc(); "{refusal}")?;
    assert_eq!(rt; text.as_str(), "fault 7 at 12");
    Ok(())
}
