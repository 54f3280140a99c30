// What a switch makes of the engine (speed_switch.rs, `attempt_speed_switch`): upward a latched block is cut or
// discarded, downward the engine stays as it is. `up` is a bool and no closure: the outcome and the engine after are definitions of the
// paper over that flag, with one equation for both directions, and the switch decides once; a closure would hide it from the contract.
#![tactic(auto)]

ghost use Rattle.std.specs.Prelude.{◌≡◌};
ghost use Rattle.cut.specs.Cut.{ready_block, outcome_of, ungranted, cut_of, discarded_of, graded_of, upward_of, engine_after};

use arithmetic::pick::pick;
use console::vram_dma::{HaltArbiter, HblankBlock, TransferCursor, TransferMode, VramDma};

// What became of a latched block: the paper's three answers, of which none is one, so no Option of the other two.
#[derive(Clone, Copy)]
pub enum SwitchOutcome {
    None,
    Discarded,
    Cut,
}

// A latched block that claims the bus.
#[tactic(auto, unfolding(crate::specs::Cut::ready_block))]
pub fn ready_block(d: VramDma) -> bool
    ensures { result ≡ ready_block d }
{
    (d.block.remaining > 0) & !d.block.ready_in.active()
}

#[tactic(auto, unfolding(crate::specs::Cut::outcome_of))]
pub fn outcome(d: VramDma, up: bool) -> SwitchOutcome
    ensures { result ≡ outcome_of up d }
{
    if !up | (d.block.remaining == 0) {
        return SwitchOutcome::None;
    }
    pick(ready_block(d), SwitchOutcome::Cut, SwitchOutcome::Discarded)
}

// Either way the block's FF55 count is revoked.
#[tactic(auto, unfolding(crate::specs::Cut::ungranted))]
fn ungrant(d: VramDma) -> VramDma
    ensures { result ≡ ungranted d }
{
    VramDma {
        arb: HaltArbiter {
            granted_ahead: d.arb.granted_ahead.saturating_sub(1),
            grant_counted: false,
            ..d.arb
        },
        ..d
    }
}

// A ready block is cut: the byte in flight completes outside the length.
#[tactic(auto, unfolding(crate::specs::Cut::cut_of))]
fn cut(d: VramDma) -> VramDma
    ensures { result ≡ cut_of d }
{
    VramDma {
        cursor: TransferCursor {
            mode: TransferMode::Idle,
            escape_byte: true,
            ..d.cursor
        },
        block: HblankBlock {
            remaining: 1,
            ..d.block
        },
        ..d
    }
}

#[tactic(auto, unfolding(crate::specs::Cut::discarded_of))]
fn discard(d: VramDma) -> VramDma
    ensures { result ≡ discarded_of d }
{
    VramDma {
        block: HblankBlock {
            remaining: 0,
            ready_in: d.block.ready_in.clear(),
            setup_cells: d.block.setup_cells.clear(),
            ..d.block
        },
        ..d
    }
}

#[tactic(auto, unfolding(crate::specs::Cut::graded_of))]
fn grade(d: VramDma) -> VramDma
    ensures { result ≡ graded_of d }
{
    if d.block.remaining == 0 {
        return d;
    }
    if ready_block(d) {
        cut(ungrant(d))
    } else {
        discard(ungrant(d))
    }
}

// Upward: the block is graded, the pend drops and the blind of 6 is armed.
#[tactic(auto, unfolding(crate::specs::Cut::upward_of))]
fn upward(d: VramDma) -> VramDma
    ensures { result ≡ upward_of d }
{
    let graded = grade(d);
    VramDma {
        arb: HaltArbiter {
            pend: false,
            wake_pend_blind: graded.arb.wake_pend_blind.arm(6),
            ..graded.arb
        },
        ..graded
    }
}

#[tactic(auto, unfolding(crate::specs::Cut::engine_after))]
pub fn engine_after(d: VramDma, up: bool) -> VramDma
    ensures { result ≡ engine_after up d }
{
    if up { upward(d) } else { d }
}
