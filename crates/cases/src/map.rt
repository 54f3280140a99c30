// The register and WRAM map: K3, K10, reads and writes, their declined inputs, and refusal 7.
use crate::case::{Case, lit};
use crate::say;
use engine::Cgb;
use memory::WRAM;
use std::rt::Stdout;

// A write with the LCD on into this memory, of which only the state is wanted.
fn set(case: Case, wram: &mut [u8; WRAM], address: u16, value: u8) -> Case {
    case.at(engine::write(case.state, wram, address, lit(value)).state)
}

// K3: 83 then 00 in front of any fall.
fn k3(out: Stdout) {
    let armed = Case::power_on(out, false).set(0xFF55, 0x83);
    armed.read("K3 armed with 83", 0xFF55);
    armed.set(0xFF55, 0x00).read("K3 then 00", 0xFF55);
}

// K10: compat locks FF55.
fn k10(out: Stdout) {
    let locked = Case::power_on(out, true).written("K10 FF55=00", 0xFF55, 0x00);
    locked.read("K10 FF55", 0xFF55);
    locked.read("K10 FF4C", 0xFF4C);
    locked.read("K10 FF4D", 0xFF4D);
    locked.read("K10 FF70", 0xFF70);
    locked.read("K10 FF74", 0xFF74);
}

// Registers at power-on and after a write.
fn registers_read(case: Case) {
    case.read("FF4D", 0xFF4D);
    case.set(0xFF4D, 0x01).read("FF4D=01", 0xFF4D);
    case.read("FF70", 0xFF70);
    case.read("FF4F", 0xFF4F);
}

// Work RAM repeats from E000 up.
fn echo(case: Case) {
    let mut wram = [0; WRAM];
    let low = set(case, &mut wram, 0xC000, 0x12);
    low.read_of("C000=12, E000", &wram, 0xE000);
}

// D000 up is in the bank of FF70, where 0 means 1.
fn banks(case: Case) {
    let mut wram = [0; WRAM];
    let bank2 = set(case, &mut wram, 0xFF70, 0x02);
    let held = set(bank2, &mut wram, 0xD000, 0x34);
    held.read_of("bank 2, D000=34, F000", &wram, 0xF000);
    let bank0 = set(held, &mut wram, 0xFF70, 0x00);
    bank0.read_of("bank 0, D000", &wram, 0xD000);
}

// The extra OAM rows repeat each eight bytes.
fn extra_rows(case: Case) {
    case.set(0xFEA1, 0x56).read("FEA1=56, FEB9", 0xFEB9);
}

fn pointers(case: Case) {
    let source = case.set(0xFF51, 0x12).set(0xFF52, 0x34);
    let both = source.set(0xFF53, 0xFF).set(0xFF54, 0xFF);
    both.tally("1234 to FFFF");
    both.set(0xFF55, 0x01).tally("and FF55=01");
}

// 2 comes before 4.
fn lengths_read(case: Case) {
    let short = [0; 32767];
    let long = [0; 32769];
    case.read_of("read FF55, one short", &short, 0xFF55);
    case.read_of("read FF55, one long", &long, 0xFF55);
    case.read_of("read 0000, one short", &short, 0x0000);
    case.read_of("read 0000, one long", &long, 0x0000);
}

// A write into a slice of the wrong length, and what is left of the state.
fn written_of(case: Case, label: &str, wram: &mut [u8], address: u16, value: u8) {
    let written = engine::write(case.state, wram, address, lit(value));
    case.answered(label, written.answer);
    case.at(written.state).tally("then");
}

fn lengths_written(case: Case) {
    let mut long = [0u8; 32769];
    written_of(case, "write FF55, one short", &mut [0; 32767], 0xFF55, 0x00);
    written_of(case, "write C000, one long", &mut long, 0xC000, 0x77);
    case.answered("and C000 holds", Ok(long[0]));
}

fn addresses(case: Case) {
    case.read("read FE9F", 0xFE9F);
    case.read("read FEA0", 0xFEA0);
    let same = case.written("write FE9F", 0xFE9F, 0x01);
    same.written("write FEA0", 0xFEA0, 0x01);
}

fn colors(case: Case) {
    for address in 0xFF68..=0xFF6C {
        case.read("read FF68 up", address);
        case.written("write FF68 up", address, 0x01);
    }
}

// The tally of a state that one field was changed in.
fn changed<F: Fn(&mut Cgb)>(case: Case, label: &str, change: F)
    requires { F.IsAlwaysCallable change }
{
    let mut state = case.state;
    change(&mut state);
    case.at(state).tally(label);
}

// Five of refusal 7's tests, in the paper's order, each with its good neighbour. (`seven_first` has the sixth.)
fn states(case: Case) {
    changed(case, "quota 2", |s| s.vram_dma.cursor.quota = 2);
    changed(case, "quota 3", |s| s.vram_dma.cursor.quota = 3);
    changed(case, "block 16", |s| s.vram_dma.block.remaining = 16);
    changed(case, "block 17", |s| s.vram_dma.block.remaining = 17);
    changed(case, "left 2048", |s| s.vram_dma.cursor.remaining = 2048);
    changed(case, "left 2049", |s| s.vram_dma.cursor.remaining = 2049);
    changed(case, "FF70 7", |s| s.svbk = 7);
    changed(case, "FF70 8", |s| s.svbk = 8);
    changed(case, "bank 1", |s| s.vram.selected = 1);
    changed(case, "bank 2", |s| s.vram.selected = 2);
}

// Left 0 in a mode other than Idle, with a slice of the wrong length at an address of no map.
fn seven_first(out: Stdout) {
    let armed = Case::power_on(out, false).set(0xFF55, 0x80);
    armed.read("armed, left 16", 0xFF55);
    let mut unreached = armed;
    unreached.state.vram_dma.cursor.remaining = 0;
    unreached.read_of("armed, left 0", &[0; 32767], 0x0000);
    unreached.written("and written", 0xFF55, 0x00);
}

fn declined(case: Case) {
    lengths_read(case);
    lengths_written(case);
    addresses(case);
    colors(case);
    states(case);
    seven_first(case.out);
}

pub fn map(out: Stdout) {
    k3(out);
    k10(out);
    let case = Case::power_on(out, false);
    registers_read(case);
    echo(case);
    banks(case);
    extra_rows(case);
    pointers(case);
    declined(case);
    case.say("estimate of 00", estimate::estimate(0x00));
    case.say("estimate of FF", estimate::estimate(0xFF));
}
