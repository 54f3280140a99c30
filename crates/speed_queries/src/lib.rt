// What is asked of the speed and of the blackout of a switch, and changes nothing (lib.rs, speed_switch.rs). Each tests 7.
#![tactic(auto)]

ghost use Rattle.answers.specs.Answers.{flag_values, byte_values};
ghost use Rattle.answers.specs.Queries.{Asked};
ghost use Rattle.speed_queries.specs.Queries.{switch_in_progress, divider_runs, at_double_speed, cpu_steps};

use answers::query::asked;
use console::Cgb;
use console::refusal::Refusal;

// A blackout is running.
pub fn speed_switch_in_progress(state: Cgb) -> Result<bool, Refusal>
    ensures { Asked flag_values state (switch_in_progress state) result }
{
    let running = blackout::blackout_active(state.speed_switch_blackout);
    asked(state, running)
}

pub fn speed_switch_divider_active(state: Cgb) -> Result<bool, Refusal>
    ensures { Asked flag_values state (divider_runs state) result }
{
    let runs = blackout::blackout_divider_active(state.double_speed, state.speed_switch_blackout);
    asked(state, runs)
}

pub fn double_speed(state: Cgb) -> Result<bool, Refusal>
    ensures { Asked flag_values state (at_double_speed state) result }
{
    asked(state, state.double_speed)
}

pub fn cpu_steps_per_dot(state: Cgb) -> Result<u8, Refusal>
    ensures { Asked byte_values state (cpu_steps state) result }
{
    asked(state, speed_switch::steps_per_dot(state.double_speed))
}
