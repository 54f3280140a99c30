// Lent memory: the length that document 01 gives a slice, and access that is total, so that no
// caller needs to know a length.
#![tactic(auto)]

pub mod wram;

ghost use Rattle.std.specs.Prelude.{◌≡◌, get_or, set};
ghost use Rattle.memory.specs.Lengths.{wrong_lengths};

pub const CARTRIDGE: usize = 40960;

pub const WRAM: usize = 32768;

pub const VRAM: usize = 16384;

pub const OAM: usize = 160;

// Refusal 2 of a call that is lent all four slices, by their lengths alone, which come one by one as the slices do.
#[tactic(auto, unfolding(crate::specs::Lengths::wrong_lengths))]
pub fn wrong_lengths(cartridge: usize, wram: usize, vram: usize, oam: usize) -> bool
    ensures { result ≡ wrong_lengths cartridge wram vram oam }
{
    (cartridge != CARTRIDGE) | (wram != WRAM) | (vram != VRAM) | (oam != OAM)
}

// The byte at an index; 0 past the end.
pub fn byte_at(bytes: &[u8], at: usize) -> u8
    ensures { result ≡ get_or bytes.now at 0 }
{
    bytes.get(at).copied().unwrap_or(0)
}

// A value stored at an index; nothing past the end. Through `get_mut` it is no shorter, and its proof would need a file.
pub fn put_at<T: Copy>(places: &mut [T], at: usize, value: T)
    ensures { places.new ≡ set places.old at value }
{
    if at < places.len() {
        places[at] = value;
    }
}
