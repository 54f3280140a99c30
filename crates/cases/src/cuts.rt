// K6: a switch cuts a block, which owes one free pair.
use crate::case::Case;
use crate::{hblank, say};
use std::rt::Stdout;

fn standing(case: Case) {
    case.tally("tally");
    case.read("FF55", 0xFF55);
}

// As K2 with 81: 30 of 32 are left; FF4D=01 and an unheld switch cut.
fn cut(out: Stdout) -> Case {
    let begun = hblank::begun(out, 0x81);
    begun.tally("tally");
    let after = begun.set(0xFF4D, 0x01).switch("switch", 0, false);
    standing(after);
    after
}

// A fall and a bus call: one free pair, left 30, FF55 80; and no more.
fn by_bus(case: Case) {
    let free = case.fallen(3).bus("fall, bus, pairs");
    standing(free);
    free.bus("bus, pairs");
}

// With the quota at 0 a General transfer waits for a fall.
fn quota_spent(case: Case) {
    let none = case.set(0xFF55, 0x00).next("FF55=00, next pair");
    none.fallen(3).next("a fall, next pair");
}

fn by_drain(case: Case) {
    let free = case.drain_escape("escape drain");
    standing(free);
    let none = free.next("next pair");
    quota_spent(none.drain_escape("escape drain"));
}

pub fn k6(out: Stdout) {
    say::line(out, "K6");
    let case = cut(out);
    by_bus(case);
    say::line(out, "K6 by the escape drain");
    by_drain(case);
    say::line(out, "K6 by a fall and the escape drain");
    by_drain(case.fallen(3));
}
