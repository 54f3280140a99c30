// K2: a block that the screen starts, with FF55 after each fall.
use crate::case::Case;
use crate::say;
use std::rt::Stdout;

fn fall(case: Case, label: &str, mode: u8) -> Case {
    let after = case.fallen(mode);
    after.read(label, 0xFF55);
    after
}

// The third fall commits.
fn three_falls(armed: Case) -> Case {
    armed.read("armed, FF55", 0xFF55);
    let first = fall(armed, "fall in mode 3", 3);
    let second = fall(first, "second fall, in mode 0", 0);
    fall(second, "third", 0)
}

// The bus call after the fourth fall takes the set-up cell, that after the fifth two pairs.
fn two_falls(committed: Case) -> Case {
    let cell = fall(committed, "fourth", 0).bus("bus, pairs");
    fall(cell, "fifth", 0).bus("bus, pairs")
}

// Armed with this value of FF55, five falls and two bus calls.
pub fn begun(out: Stdout, value: u8) -> Case {
    let armed = Case::power_on(out, false).set(0xFF55, value);
    two_falls(three_falls(armed))
}

// FF55=80: 00 after the second fall, FF after the third.
pub fn k2(out: Stdout) {
    say::line(out, "K2");
    begun(out, 0x80);
}
