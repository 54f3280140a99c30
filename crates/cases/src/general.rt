// K1: a General transfer by rounds of a fall and a held bus call.
use crate::case::Case;
use crate::lent::Memory;
use crate::say::{self, Row};
use std::rt::Stdout;

pub fn round(case: Case, lent: &mut Memory) -> Case {
    case.fallen(3).bus_beside("fall, bus, pairs", 0, lent)
}

pub fn rounds(start: Case, turns: u8, lent: &mut Memory) -> Case {
    let mut case = start;
    for _ in 0..turns {
        case = round(case, lent);
    }
    case
}

// FF, and the row of VRAM that was moved, with the byte behind it.
fn end(case: Case, lent: &Memory) {
    case.read("FF55", 0xFF55);
    let row = Row(&lent.vram[..17]);
    say::line(case.out, format_args!("VRAM from 8000:{row}"));
}

// FF55=00; eight rounds: 0000h to 8000h, up to 000Fh to 800Fh; then FF, and a ninth brings none.
pub fn k1(out: Stdout) {
    say::line(out, "K1");
    let mut lent = Memory::new();
    let general = Case::power_on(out, false).set(0xFF55, 0x00);
    let all = rounds(general, 8, &mut lent);
    end(all, &lent);
    round(all, &mut lent);
    lent.stored(out);
}
