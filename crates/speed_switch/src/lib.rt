// The KEY1 speed switch (speed_switch.rs): the CPU's steps at a speed, and the switch.
#![tactic(auto)]

pub mod switch;

ghost use Rattle.std.specs.Prelude.{◌≡◌};
ghost use Rattle.speed_switch.specs.Speed.{steps_per_dot};

use arithmetic::pick::pick;

// CPU steps in a dot.
pub fn steps_per_dot(double_speed: bool) -> u8
    ensures { result ≡ steps_per_dot double_speed }
{
    pick(double_speed, 2, 1)
}
