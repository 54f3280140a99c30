// The fall (vram_dma.rs, `vram_dma_fall_edge`). The state is built at one place, so that the console around the engine is made
// anew once for every outcome: with a `match` of two returns, or through `decided`, a fall takes longer (docs/PERFORMANCE.md).
#![tactic(auto)]

ghost use Rattle.std.specs.Prelude.{◌≡◌};
ghost use Rattle.console.specs.Refusals.{answered};
ghost use Rattle.answers.specs.Answers.{Answers, outcome_says, claim_values};
ghost use Rattle.fall_call.specs.Fall.{fallen, fall_refusal, fallen_state, fall_call_of, fall_said};

use answers::Outcome;
use arithmetic::pick::pick;
use console::refusal::Refusal;
use console::{Cgb, CgbConsoleState, VramDmaClaim};
use fall_edge::{FallInput, Fallen};

// The fall, or the first reason to decline it.
#[tactic(auto, unfolding(crate::specs::Fall::fall_refusal, console::specs::Reached::state_refusal))]
fn judge(state: Cgb, input: FallInput) -> Result<Fallen, Refusal>
    ensures { result ≡ answered (fall_refusal state input) (fallen state input) }
{
    state.reached()?;
    if input.mode > 3 {
        return Err(Refusal::Mode);
    }
    let fallen = fall_edge::fall_edge(state.vram_dma, state.double_speed, input);
    if fallen.refused {
        return Err(Refusal::Granted);
    }
    Ok(fallen)
}

// The console keeps a commit's claim until the next one.
#[tactic(auto, unfolding(crate::specs::Fall::fallen_state))]
fn fallen_state(state: Cgb, fallen: Fallen) -> Cgb
    ensures { result ≡ fallen_state fallen state }
{
    let last = state.console_state.vram_dma_claim;
    Cgb {
        vram_dma: fallen.dma,
        console_state: CgbConsoleState {
            vram_dma_claim: pick(fallen.claim.committed, fallen.claim, last),
            ..state.console_state
        },
        ..state
    }
}

#[tactic(auto, unfolding(crate::specs::Fall::fall_call_of, crate::specs::Fall::fall_said, crate::specs::Fall::fallen_state))]
pub fn vram_dma_fall_edge(state: Cgb, input: FallInput) -> Outcome<VramDmaClaim>
    ensures { Answers (outcome_says claim_values) (fall_call_of state input) (fall_said state input) result }
{
    let judged = judge(state, input);
    // Declined, the engine is the one given and there is no claim.
    let unchanged = Fallen {
        refused: true,
        claim: VramDmaClaim::default(),
        dma: state.vram_dma,
    };
    Outcome {
        answer: judged.map(|fallen| fallen.claim),
        state: fallen_state(state, judged.unwrap_or(unchanged)).anew(),
    }
}
