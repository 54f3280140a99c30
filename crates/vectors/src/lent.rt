// Lent memory in a vector: its contents are a rule of the index and a seed, the same as the original's
// side has, so that a vector names only the bytes that a call changed.
use crate::vector::Vector;
use memory::{byte_at, put_at};
use std::array;

// Each with a byte more than a call takes, so that a slice can be too long. Not one struct with the cases' `Memory`, whose lengths and methods
// are others: by four const parameters, with a trait for the methods of each side, it would be longer than the two.
#[derive(Drop)]
pub struct Lent {
    pub cartridge: [u8; 40961],
    pub wram: [u8; 32769],
    pub vram: [u8; 16385],
    pub oam: [u8; 161],
}

// The slices, by their numbers in a vector.
#[derive(Clone, Copy, PartialEq)]
pub enum Slice {
    Cartridge = 0,
    Wram = 1,
    Vram = 2,
    Oam = 3,
}

impl Slice {
    // The slice of a byte that a call changed. The cartridge never is: its number says that there is none.
    pub fn of_change(number: u8) -> Option<Self> {
        match number {
            1 => Some(Slice::Wram),
            2 => Some(Slice::Vram),
            3 => Some(Slice::Oam),
            _ => None,
        }
    }
}

// The first of each 256 bytes, from which they count up.
fn first(slice: Slice, seed: u8, run: usize) -> u8 {
    ((run % 256 * 7 + slice as usize * 85 + usize::from(seed)) % 256) as u8
}

fn filled(slice: Slice, seed: u8, index: usize) -> u8 {
    first(slice, seed, index / 256).wrapping_add((index % 256) as u8)
}

// Two times 0 to 255: 256 bytes in a row, from any on, are what a memory holds there. Copied and compared in runs, a memory takes a
// fraction of the time that it takes byte by byte.
fn counted_up() -> [u8; 512] {
    array::from_fn(|i| (i % 256) as u8)
}

fn fill(memory: &mut [u8], slice: Slice, seed: u8) {
    let counted_up = counted_up();
    for (run, bytes) in memory.chunks_mut(256).enumerate() {
        let from = usize::from(first(slice, seed, run));
        bytes.copy_from_slice(&counted_up[from..from + bytes.len()]);
    }
}

fn unchanged(memory: &[u8], slice: Slice, seed: u8) -> bool {
    let counted_up = counted_up();
    memory.chunks(256).enumerate().all(|(run, bytes)| {
        let from = usize::from(first(slice, seed, run));
        bytes == &counted_up[from..from + bytes.len()]
    })
}

// Every byte is as filled, but for those that the vector names.
fn as_named(memory: &mut [u8], slice: Slice, vector: &Vector) -> bool {
    let seed = vector.seed();
    let mut same = true;
    for change in vector.changes.into_iter().flatten() {
        if change.slice == slice {
            same &= byte_at(memory, change.index) == change.value;
            put_at(memory, change.index, filled(slice, seed, change.index));
        }
    }
    same & unchanged(memory, slice, seed)
}

impl Lent {
    pub fn new() -> Self {
        Lent {
            cartridge: [0; 40961],
            wram: [0; 32769],
            vram: [0; 16385],
            oam: [0; 161],
        }
    }

    pub fn fill(&mut self, seed: u8) {
        fill(&mut self.cartridge, Slice::Cartridge, seed);
        fill(&mut self.wram, Slice::Wram, seed);
        fill(&mut self.vram, Slice::Vram, seed);
        fill(&mut self.oam, Slice::Oam, seed);
    }

    // The bytes that the vector names are taken back.
    pub fn as_named(&mut self, vector: &Vector) -> bool {
        let read = unchanged(&self.cartridge, Slice::Cartridge, vector.seed());
        let written = as_named(&mut self.wram, Slice::Wram, vector);
        let stored = as_named(&mut self.vram, Slice::Vram, vector);
        let deposited = as_named(&mut self.oam, Slice::Oam, vector);
        read & written & stored & deposited
    }
}
