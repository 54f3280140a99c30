// Falls and switches that are declined, beside neighbours that are not.
use crate::case::Case;
use crate::pairs::Run;
use crate::say;
use std::rt::Stdout;

// A switch attempt that must leave the state as it is.
fn declined(case: Case, label: &str, dot_phase: u8, hold: bool) {
    case.switch(label, dot_phase, hold).compare(case.state);
}

pub fn modes(out: Stdout) {
    say::line(out, "declined falls");
    let armed = Case::power_on(out, false).set(0xFF55, 0x80);
    armed.fell("fall in mode 4", 4).compare(armed.state);
    armed.fell("fall in mode 3", 3);
}

// 3 comes before 5, and 5 before 12.
fn unarmed(case: Case) {
    declined(case, "unarmed, phase 5, held", 5, true);
    declined(case, "unarmed, phase 4, held", 4, true);
    declined(case, "unarmed, phase 4", 4, false);
}

fn armed(case: Case) -> Case {
    declined(case, "armed, phase 5", 5, false);
    declined(case, "armed, phase 4, held", 4, true);
    case.switch("armed, phase 4", 4, false)
}

// 5 comes before 11, and 11 before 12.
fn blacked_out(case: Case) {
    declined(case, "in the blackout, held", 4, true);
    declined(case, "in the blackout, unarmed", 4, false);
    declined(case.set(0xFF4D, 0x01), "in the blackout, armed", 4, false);
}

// A block latched with the LCD off is ready in 2 falls.
fn latched(case: Case) {
    let waiting = case.fallen(3);
    let armed = waiting.set(0xFF4D, 0x01);
    armed.switch("down, block not ready", 4, false);
    ready(waiting.fallen(3));
}

// 12 comes before 13.
fn ready(case: Case) {
    declined(case, "down, block ready, unarmed", 4, false);
    let armed = case.set(0xFF4D, 0x01);
    declined(armed, "down, block ready", 4, false);
    armed.read("FF4D", 0xFF4D);
    let moved = Run::new(armed).until(16);
    moved.case.switch("down, block moved", 4, false);
}

pub fn switches(out: Stdout) {
    say::line(out, "declined switches");
    let start = Case::power_on(out, false);
    unarmed(start);
    let up = armed(start.set(0xFF4D, 0x01));
    blacked_out(up);
    let over = up.at(engine::drain_speed_switch_blackout(up.state, 131_077).state);
    declined(over, "after the blackout, unarmed", 4, false);
    latched(over.set_in_the_dark(0xFF55, 0x80));
}
