// The speed switch, its blackout and the wake in it (lib.rs, `resolve_stop`,
// `drain_speed_switch_blackout`, `speed_switch_wake_ready`).
#![tactic(auto)]

ghost use Rattle.std.specs.Prelude.{◌≡◌};
ghost use Rattle.console.specs.Refusals.{answered};
ghost use Rattle.answers.specs.Answers.{Answers, outcome_says, flag_values, switch_values};
ghost use Rattle.speed_calls.specs.Speed.{defers, switch_refusal, switch_call_of, switch_said};
ghost use Rattle.speed_calls.specs.Speed.{blackout_call_of, blackout_said, wake_call_of, wake_said};

use answers::Outcome;
use answers::decided::{decided, reached};
use console::Cgb;
use console::refusal::Refusal;
use cut::SwitchOutcome;
use speed_switch::switch::SwitchInput;

// Downward, a granted burst keeps the bus and the settle waits for it.
#[tactic(auto, unfolding(crate::specs::Speed::defers))]
fn deferred(state: Cgb) -> bool
    ensures { result ≡ defers state }
{
    state.double_speed & cut::ready_block(state.vram_dma)
}

// Declined for the first reason that holds.
#[tactic(auto, unfolding(crate::specs::Speed::switch_refusal, console::specs::Reached::state_refusal))]
fn allowed(state: Cgb, input: SwitchInput) -> Result<(), Refusal>
    ensures { result ≡ answered (switch_refusal state input) tt }
{
    state.reached()?;
    if input.dot_phase > 4 {
        return Err(Refusal::Phase);
    }
    if input.hold {
        return Err(Refusal::Held);
    }
    if blackout::blackout_active(state.speed_switch_blackout) {
        return Err(Refusal::Blackout);
    }
    if !state.key1_armed {
        return Err(Refusal::Unarmed);
    }
    if deferred(state) {
        return Err(Refusal::Deferred);
    }
    Ok(())
}

#[tactic(auto, unfolding(crate::specs::Speed::switch_call_of, crate::specs::Speed::switch_said))]
pub fn attempt_speed_switch(state: Cgb, input: SwitchInput) -> Outcome<SwitchOutcome>
    ensures { Answers (outcome_says switch_values) (switch_call_of state input) (switch_said state input) result }
{
    let switched = speed_switch::switch::switch(state, input);
    decided(
        allowed(state, input).err(),
        state,
        switched.outcome,
        switched.state,
    )
}

#[tactic(auto, unfolding(crate::specs::Speed::blackout_call_of, crate::specs::Speed::blackout_said))]
pub fn drain_speed_switch_blackout(state: Cgb, elapsed: u32) -> Outcome<bool>
    ensures { Answers (outcome_says flag_values) (blackout_call_of state elapsed) (blackout_said state elapsed) result }
{
    let drained = blackout::drain_blackout(state, elapsed);
    reached(state, drained.flag, drained.state)
}

#[tactic(auto, unfolding(crate::specs::Speed::wake_call_of, crate::specs::Speed::wake_said))]
pub fn speed_switch_wake_ready(state: Cgb, mcycle_boundary: bool) -> Outcome<bool>
    ensures { Answers (outcome_says flag_values) (wake_call_of state mcycle_boundary) (wake_said state mcycle_boundary) result }
{
    let woken = blackout::wake_intake_ready(state, mcycle_boundary);
    reached(state, woken.flag, woken.state)
}
