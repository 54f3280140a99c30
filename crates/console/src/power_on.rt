// The state at power-on: the Rust's `Default` of every part, with the compat flag as given.
ghost use Rattle.std.specs.Prelude.{◌≡◌};
ghost use Rattle.console.specs.PowerOn.{power_on_of};

use crate::object::ObjectDma;
use crate::vram_dma::VramDma;
use crate::{Cgb, CgbConsoleState, CgbVram};

// WRAM is lent, so its power-on pattern is the caller's.
#[tactic(auto, unfolding(crate::specs::PowerOn::power_on_of, crate::specs::PowerOn::dma_at_rest))]
pub fn power_on(dmg_compat: bool) -> Cgb
    ensures { result ≡ power_on_of dmg_compat }
{
    Cgb {
        svbk: 1,
        key1_armed: false,
        double_speed: false,
        dmg_compat,
        vram_dma: VramDma::default(),
        speed_switch_blackout: 0,
        speed_switch_wake_latency: None,
        switch_relock_debit: false,
        ff72: 0,
        ff73: 0,
        ff74: 0,
        ff75: 0,
        extra_oam: [0; 24],
        vram: CgbVram::default(),
        console_state: CgbConsoleState::default(),
        object_dma: ObjectDma::default(),
    }
}
