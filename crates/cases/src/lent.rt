// Memory that is lent to bus calls.
use crate::say::{self, Row};
use memory::byte_at;
use std::array;
use std::rt::Stdout;

// A cartridge whose bytes tell their addresses; WRAM, VRAM and OAM of zeros. Not one struct with the vectors' `Lent`, which has a byte more of
// each and other methods: it would be longer than the two.
#[derive(Drop)]
pub struct Memory {
    pub cartridge: [u8; memory::CARTRIDGE],
    pub wram: [u8; memory::WRAM],
    pub vram: [u8; memory::VRAM],
    pub oam: [u8; memory::OAM],
}

// How many bytes were stored in a memory of zeros.
fn count(memory: &[u8]) -> usize {
    memory.iter().filter(|byte| **byte != 0).count()
}

pub fn stored(out: Stdout, vram: &[u8], oam: &[u8]) {
    let in_vram = count(vram);
    let in_oam = count(oam);
    say::line(out, format_args!("bytes stored in VRAM: {in_vram}"));
    say::line(out, format_args!("bytes stored in OAM: {in_oam}"));
}

impl Memory {
    // Each byte of the cartridge is the low byte of its address and 40h, so that none that the cases read is 0.
    pub fn new() -> Self {
        Memory {
            cartridge: array::from_fn(|i| ((i % 256) as u8).wrapping_add(0x40)),
            wram: [0; memory::WRAM],
            vram: [0; memory::VRAM],
            oam: [0; memory::OAM],
        }
    }

    pub fn stored(&self, out: Stdout) {
        stored(out, &self.vram, &self.oam);
    }

    // The byte at a place of OAM.
    pub fn say_place(&self, out: Stdout, low: u8) {
        let byte = byte_at(&self.oam, usize::from(low));
        say::line(out, format_args!("OAM at FE{low:02X}: {byte:02X}"));
    }

    // The first places of OAM.
    pub fn say_oam(&self, out: Stdout) {
        let row = Row(&self.oam[..6]);
        say::line(out, format_args!("OAM from FE00:{row}"));
    }
}
