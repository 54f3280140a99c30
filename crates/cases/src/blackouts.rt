// K7: the blackout of three switches, to the edge.
use crate::case::Case;
use crate::say;
use std::rt::Stdout;

fn drained(case: Case, elapsed: u32) -> Case {
    case.say("drained by", elapsed);
    case.drain_blackout("over", elapsed)
}

// A switch, and its blackout drained to the last edge but one, and to the last.
fn switched(case: Case, label: &str, dot_phase: u8, but_one: u32) -> Case {
    let black = case.set(0xFF4D, 0x01).switch(label, dot_phase, false);
    drained(drained(black, but_one), 1)
}

// The phases of the second and third switch are open and change nothing.
pub fn k7(out: Stdout, dot_phase: u8) {
    say::line(out, "K7");
    let double = switched(Case::power_on(out, false), "up at phase 3", 3, 131_076);
    let single = switched(double, "down", dot_phase, 262_143);
    switched(single, "up", dot_phase, 131_078);
}
