// Step 6 of a fall: blinds, commit, tenure, new pend, readiness, quota, seize count. `committing` is a bool and no closure: each step
// is a definition of the paper over that flag, with one equation for both cases, and `decide` decides once, for the steps and the claim;
// a closure would hide the decision from the contract.
#![tactic(auto)]

ghost use Rattle.std.specs.Prelude.{◌≡◌};
ghost use Rattle.fall_stages.specs.Fall.{blinds_of, commits, commit_of, tenure_of, pend_of, readiness_of, seizure_of, served_of, decided_of};

use console::VramDmaClaim;
use console::vram_dma::VramDma;
use fall_stages::{Fallen, View};

#[tactic(auto, unfolding(fall_stages::specs::Fall::blinds_of))]
pub fn step_blinds(d: VramDma, v: View) -> VramDma
    ensures { result ≡ blinds_of v d }
{
    let ticked = halt_arbiter::step_blinds(d.arb, v);
    VramDma {
        block: hblank_block::take_if(d.block, ticked.passed_over),
        arb: ticked.arb,
        ..d
    }
}

fn committing(d: VramDma, v: View) -> bool
    ensures { result ≡ commits v d }
{
    d.arb.pend
        & v.armed
        & (v.in_hblank | d.arb.pend_from_arm | d.arb.pend_granted)
        & (!v.cpu_halted | (d.arb.pend_age <= 2) | d.arb.pend_granted)
}

#[tactic(auto, unfolding(fall_stages::specs::Fall::commit_of))]
fn commit(d: VramDma, v: View, committing: bool) -> VramDma
    ensures { result ≡ commit_of committing v d }
{
    VramDma {
        block: hblank_block::commit(d.block, v, d.arb, committing),
        arb: halt_arbiter::commit(d.arb, v, committing),
        ..d
    }
}

// The wake drain's tenure consumes an entry that lands in it.
#[tactic(auto, unfolding(fall_stages::specs::Fall::tenure_of))]
fn step_tenure(d: VramDma, v: View) -> VramDma
    ensures { result ≡ tenure_of v d }
{
    let ticked = halt_arbiter::step_tenure(d.arb, v, d.cursor.remaining > 0);
    VramDma {
        block: hblank_block::take_if(d.block, ticked.passed_over),
        arb: ticked.arb,
        ..d
    }
}

#[tactic(auto, unfolding(fall_stages::specs::Fall::pend_of))]
fn renew_pend(d: VramDma, v: View, committing: bool) -> VramDma
    ensures { result ≡ pend_of committing v d }
{
    let pends = !committing
        & v.armed
        & v.in_hblank
        & !d.block.taken
        & (d.cursor.remaining > 0)
        & (d.block.remaining == 0);
    VramDma {
        arb: halt_arbiter::renew_pend(d.arb, pends),
        ..d
    }
}

#[tactic(auto, unfolding(fall_stages::specs::Fall::readiness_of))]
fn step_readiness(d: VramDma, double_speed: bool) -> VramDma
    ensures { result ≡ readiness_of double_speed d }
{
    VramDma {
        block: hblank_block::step_readiness(d.block, double_speed),
        ..d
    }
}

#[tactic(auto, unfolding(fall_stages::specs::Fall::seizure_of))]
fn count_seizure(d: VramDma) -> VramDma
    ensures { result ≡ seizure_of d }
{
    VramDma {
        block: hblank_block::count_seizure(d.block, dma_status::seizes_bus(d)),
        ..d
    }
}

// What follows the decision to commit or not.
#[tactic(auto, unfolding(fall_stages::specs::Fall::served_of))]
fn serve(d: VramDma, v: View, committing: bool) -> VramDma
    ensures { result ≡ served_of committing v d }
{
    let committed = commit(d, v, committing);
    let held = step_tenure(committed, v);
    let pended = renew_pend(held, v, committing);
    let ready = step_readiness(pended, v.double_speed);
    count_seizure(halt_gate::refill(ready, v.double_speed))
}

// Step 6 from the commit on, of the state after the blinds; refused, the state is the one given.
#[tactic(auto, unfolding(fall_stages::specs::Fall::decided_of))]
pub fn decide(given: VramDma, d: VramDma, v: View) -> Fallen
    ensures { result ≡ decided_of v given d }
{
    let committing = committing(d, v);
    if committing & !d.arb.grant_counted & (d.arb.granted_ahead == 255) {
        return Fallen {
            refused: true,
            claim: VramDmaClaim::default(),
            dma: given,
        };
    }
    let dma = serve(d, v, committing);
    Fallen {
        refused: false,
        claim: VramDmaClaim {
            committed: committing,
            standing: committing & (dma.arb.pend_age >= 4) & !v.oam_owns_bus,
        },
        dma,
    }
}
