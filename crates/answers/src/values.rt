// The paper's values of what a call gives, in their order, as numbers for a caller in another language.
ghost use Rattle.std.specs.Prelude.{◌≡◌, ℕ, List};
ghost use Rattle.answers.specs.Answers.{four_of, done_values, byte_values, flag_values, claim_values, tally_values, status_values, cause_number, pair_values, switch_values, arbitration_values, moved_values, conflict_values, cycle_values, object_dma_values};

use crate::{Cycle, Moved, ObjectDmaTally, Tally};
use bus::arbitration::Arbitration;
use console::VramDmaClaim;
use cut::SwitchOutcome;
use transfer::VramDmaStatus;
use transfer::pair::{BytePair, Cause};

pub trait Values: Copy {
    ghost values: { Self → List ℕ };

    // There are four at most: the spare ones are 0.
    fn four(self) -> [u16; 4]
        ensures { result ≡ four_of (values self) };
}

impl Values for () {
    ghost values = { done_values };

    fn four(self) -> [u16; 4] {
        [0; 4]
    }
}

impl Values for u8 {
    ghost values = { byte_values };

    fn four(self) -> [u16; 4] {
        [u16::from(self), 0, 0, 0]
    }
}

impl Values for bool {
    ghost values = { flag_values };

    fn four(self) -> [u16; 4] {
        [u16::from(self), 0, 0, 0]
    }
}

impl Values for VramDmaClaim {
    ghost values = { claim_values };

    fn four(self) -> [u16; 4] {
        [u16::from(self.committed), u16::from(self.standing), 0, 0]
    }
}

impl Values for Tally {
    ghost values = { tally_values };

    fn four(self) -> [u16; 4] {
        [
            self.source,
            self.dest,
            self.remaining,
            u16::from(self.escape_byte),
        ]
    }
}

impl Values for VramDmaStatus {
    ghost values = { status_values };

    fn four(self) -> [u16; 4] {
        match self {
            VramDmaStatus::Idle => [0; 4],
            VramDmaStatus::General { remaining } => [1, remaining, 0, 0],
            VramDmaStatus::HBlank {
                remaining,
                source,
                dest,
            } => [2, remaining, source, dest],
        }
    }
}

// A function and no `From<Cause>`: that would have to stand beside `Cause`, in a crate that has no function, and its definition with it,
// away from those of the other answers.
pub fn cause_number(cause: Cause) -> u8
    ensures { result ≡ cause_number cause }
{
    match cause {
        Cause::GoingOn => 0,
        Cause::CountedOut => 1,
        Cause::Carried => 2,
    }
}

impl Values for Option<(BytePair, Cause)> {
    ghost values = { pair_values };

    fn four(self) -> [u16; 4] {
        match self {
            Some((pair, cause)) => [1, pair.source, pair.dest, u16::from(cause_number(cause))],
            None => [0; 4],
        }
    }
}

impl Values for SwitchOutcome {
    ghost values = { switch_values };

    fn four(self) -> [u16; 4] {
        match self {
            SwitchOutcome::None => [0; 4],
            SwitchOutcome::Discarded => [1, 0, 0, 0],
            SwitchOutcome::Cut => [2, 0, 0, 0],
        }
    }
}

impl Values for Arbitration {
    ghost values = { arbitration_values };

    fn four(self) -> [u16; 4] {
        match self {
            Arbitration::Clear => [0; 4],
            Arbitration::Contended => [1, 0, 0, 0],
            Arbitration::Stall => [2, 0, 0, 0],
        }
    }
}

impl Values for Moved {
    ghost values = { moved_values };

    fn four(self) -> [u16; 4] {
        [u16::from(self.count), u16::from(self.setup_cell), 0, 0]
    }
}

impl Values for Option<u16> {
    ghost values = { conflict_values };

    fn four(self) -> [u16; 4] {
        match self {
            Some(source) => [1, source, 0, 0],
            None => [0; 4],
        }
    }
}

impl Values for Cycle {
    ghost values = { cycle_values };

    fn four(self) -> [u16; 4] {
        match self {
            Cycle::Nothing => [0; 4],
            Cycle::Moved(source) => [1, source, 0, 0],
            Cycle::PassedOver(source) => [2, source, 0, 0],
        }
    }
}

impl Values for ObjectDmaTally {
    ghost values = { object_dma_values };

    fn four(self) -> [u16; 4] {
        [
            u16::from(self.runs),
            u16::from(self.counted),
            u16::from(self.page),
            0,
        ]
    }
}
