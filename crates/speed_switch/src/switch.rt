// The switch itself (speed_switch.rs, `attempt_speed_switch`), where nothing defers it.
ghost use Rattle.std.specs.Prelude.{◌≡◌};
ghost use Rattle.speed_switch.specs.Switch.{blackout_of, debit_after, switched_of};

use arithmetic::pick::pick;
use blackout::relock_edges;
use console::{Cgb, CgbConsoleState};
use cut::SwitchOutcome;

// What a switch attempt is given.
#[derive(Clone, Copy)]
pub struct SwitchInput {
    // A bus master holds the CPU.
    pub hold: bool,
    // 0 to 3, or 4 for none. A number and no enum: a caller may hand any, and one above 4 is declined with refusal 3.
    pub dot_phase: u8,
    // An interrupt is pending with IME set.
    pub interrupt_ready: bool,
    pub master_edge: u64,
}

// Both parts always stand, so no Option.
#[derive(Clone, Copy)]
pub struct Switched {
    pub outcome: SwitchOutcome,
    pub state: Cgb,
}

// Master edges of the blackout: the hold at the new speed with its relock, changed by the debit; an
// interrupt leaves only the relock.
#[tactic(auto, unfolding(crate::specs::Switch::blackout_of))]
fn blackout_count(up: bool, debit: bool, interrupt_ready: bool) -> u32
    ensures { result ≡ blackout_of up debit interrupt_ready }
{
    if interrupt_ready {
        return relock_edges(up);
    }
    let moved = pick(debit, 2, 0);
    pick(up, 131077 + moved, 262146 - moved)
}

// The displacement of the clock: set upward at phase 3, spent by the next upward switch.
fn debit_after(up: bool, debit: bool, dot_phase: u8) -> bool
    ensures { result ≡ debit_after up debit dot_phase }
{
    (up & !debit & (dot_phase == 3)) | (!up & debit)
}

#[tactic(auto, unfolding(crate::specs::Switch::switched_of))]
pub fn switch(s: Cgb, input: SwitchInput) -> Switched
    ensures { result ≡ switched_of input s }
{
    let up = !s.double_speed;
    Switched {
        outcome: cut::outcome(s.vram_dma, up),
        state: Cgb {
            vram_dma: cut::engine_after(s.vram_dma, up),
            double_speed: up,
            key1_armed: false,
            speed_switch_blackout: blackout_count(up, s.switch_relock_debit, input.interrupt_ready),
            switch_relock_debit: debit_after(up, s.switch_relock_debit, input.dot_phase),
            console_state: CgbConsoleState {
                blackout_anchor: input.master_edge,
                ..s.console_state
            },
            ..s
        },
    }
}
