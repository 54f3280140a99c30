// The fall (vram_dma.rs, `vram_dma_fall_edge`): one evaluation on a falling dot clock edge, in document 01's steps.
#![tactic(auto)]

ghost use Rattle.std.specs.Prelude.{◌≡◌};
ghost use Rattle.fall_stages.specs.Fall.{still_of, settled_of, no_claim, fell, ran_of, fall_of};
ghost use Rattle.fall_stages.specs.QuietFall.{quiet_of};

use console::VramDmaClaim;
use console::vram_dma::{TransferCursor, TransferMode, VramDma};
use fall_stages::View;
pub use fall_stages::{FallInput, Fallen};

// No block, no pend or grant, no countdown runs, no halt to unwind.
fn still(d: VramDma) -> bool
    ensures { result ≡ still_of d }
{
    hblank_block::still(d.block) & halt_arbiter::still(d.arb)
}

// The fall comes to `settle_inert`: where the engine is inert, and also while bytes are left, with none
// to move and no block to ask for.
fn quiet(d: VramDma, input: FallInput) -> bool
    ensures { result ≡ quiet_of input d }
{
    // By `==` and no match: with one the falls of a frame take a fifth longer.
    let general = d.cursor.mode == TransferMode::General;
    let armed = d.cursor.mode == TransferMode::HBlank;
    let wants = general | (armed & (input.mode == 0) & !d.block.taken);
    ((d.cursor.remaining == 0) | !wants) & still(d) & !input.halted & !input.stopped
}

#[tactic(auto, unfolding(fall_stages::specs::Fall::settled_of))]
fn settle_inert(d: VramDma, in_hblank: bool) -> VramDma
    ensures { result ≡ settled_of in_hblank d }
{
    VramDma {
        cursor: TransferCursor {
            quota: 0,
            ..d.cursor
        },
        block: hblank_block::settle(d.block, in_hblank),
        arb: halt_arbiter::settle(d.arb, in_hblank),
        ..d
    }
}

// A fall that commits nothing.
fn fell(dma: VramDma) -> Fallen
    ensures { result ≡ fell no_claim dma }
{
    Fallen {
        refused: false,
        claim: VramDmaClaim::default(),
        dma,
    }
}

// `gated` is a bool and no closure: the paper's steps 3 to 6 are one definition over that flag, and the fall decides once, of its
// input; a closure would hide the decision from the contract.
#[tactic(auto, unfolding(fall_stages::specs::Fall::ran_of))]
fn run(d: VramDma, v: View, gated: bool) -> Fallen
    ensures { result ≡ ran_of gated v d }
{
    let started = halt_gate::start(d, v);
    if gated {
        fell(halt_gate::gate(started, v))
    } else {
        block_service::decide(d, block_service::step_blinds(started, v), v)
    }
}

// The speed comes beside the engine: it is the console's.
#[tactic(auto, using(fall_stages::proofs::QuietFall::quiet_fall, fall_stages::proofs::QuietFall::loud_fall))]
pub fn fall_edge(d: VramDma, double_speed: bool, input: FallInput) -> Fallen
    ensures { result ≡ fall_of input double_speed d }
{
    if quiet(d, input) {
        return fell(settle_inert(d, input.mode == 0));
    }
    run(
        d,
        halt_gate::view(input, d, double_speed),
        halt_gate::gates(input),
    )
}
