// Internal: what a walk asks of slots and positions beside boxes.
#![tactic(auto)]

ghost use Rattle.std.specs.Prelude.{◌≡◌};
ghost use Rattle.gate.specs.Gates.{Gates, Opened, admitted, all_open};

use causes::Refusal;

// What a walk asks beside boxes. Walks are proved for any of these, and compiled for each.
pub trait Gate: Copy {
    // which slots are open, and which positions are admitted or absent
    ghost gates: { Self → Gates };

    // Of a word with a byte for each slot of node v, the bytes of open slots.
    fn keep_open(self, v: usize, marks: u64) -> u64
        ensures { Opened (gates self) v marks result };

    // Whether a position is admitted: a fault where it is absent.
    fn admits(self, p: usize) -> Result<bool, Refusal>
        ensures { result ≡ admitted (gates self) p };

    // Whether no walker just begun asks this.
    fn forged(self) -> bool
        ensures { result ≡ (gates self).forged };
}

// Boxes alone decide.
#[derive(Clone, Copy)]
pub struct AllOpen;

impl Gate for AllOpen {
    ghost gates = { λ g. all_open };

    fn keep_open(self, _v: usize, marks: u64) -> u64 {
        marks
    }

    fn admits(self, _p: usize) -> Result<bool, Refusal> {
        Ok(true)
    }

    fn forged(self) -> bool {
        false
    }
}
