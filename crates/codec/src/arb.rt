// The halt arbiter: bytes 24 to 38.
ghost use Rattle.std.specs.Prelude.{◌≡◌};
ghost use Rattle.std.proofs.lemmas.List.Edits.{sets};
ghost use Rattle.codec.specs.Arb.{arb_bytes, arb_of};

use crate::run::place;
use console::vram_dma::HaltArbiter;
use countdown::Countdown;

#[tactic(auto, unfolding(crate::specs::Arb::arb_bytes))]
pub(crate) fn put_arb(out: &mut [u8; 248], a: HaltArbiter)
    ensures { out.new ≡ sets out.old 24 (arb_bytes a) }
{
    let part = [
        a.pend as u8,
        a.pend_from_arm as u8,
        a.armed_this_fall as u8,
        a.halted_falls,
        a.prev_view_hblank as u8,
        a.pend_age,
        a.pend_granted as u8,
        a.wake_tenure.0,
        a.park_waits_for_fetch as u8,
        a.idle_claim as u8,
        a.halt_wake_blind.0,
        a.prev_cpu_halted as u8,
        a.grant_counted as u8,
        a.wake_pend_blind.0,
        a.granted_ahead,
    ];
    place(out, 24, &part);
}

#[tactic(auto, unfolding(crate::specs::Arb::arb_of))]
pub(crate) fn arb_of(b: &[u8; 248]) -> HaltArbiter
    ensures { result ≡ arb_of b.now }
{
    HaltArbiter {
        pend: b[24] == 1,
        pend_from_arm: b[25] == 1,
        armed_this_fall: b[26] == 1,
        halted_falls: b[27],
        prev_view_hblank: b[28] == 1,
        pend_age: b[29],
        pend_granted: b[30] == 1,
        wake_tenure: Countdown(b[31]),
        park_waits_for_fetch: b[32] == 1,
        idle_claim: b[33] == 1,
        halt_wake_blind: Countdown(b[34]),
        prev_cpu_halted: b[35] == 1,
        grant_counted: b[36] == 1,
        wake_pend_blind: Countdown(b[37]),
        granted_ahead: b[38],
    }
}
