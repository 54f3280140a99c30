// Where a byte is stored (document 01's stand-in for `dma_commit`).
ghost use Rattle.std.specs.Prelude.{◌≡◌};
ghost use Rattle.bus.specs.Store.{vram_with, oam_with};

use crate::vram_index;
use memory::put_at;

// A byte for VRAM, in the bank of FF4F.
pub fn commit_vram(vram: &mut [u8], bank: u8, address: u16, byte: u8)
    ensures { vram.new ≡ vram_with vram.old bank address byte }
{
    put_at(vram, vram_index(bank, address), byte);
}

// A byte for OAM. Above FE9F nothing is stored.
#[tactic(auto, unfolding(bus::specs::Store::oam_with))]
pub fn commit_oam(oam: &mut [u8], address: u16, byte: u8)
    ensures { oam.new ≡ oam_with oam.old address byte }
{
    if address > 0xFE9F {
        return;
    }
    let within = address.saturating_sub(0xFE00);
    put_at(oam, within as usize, byte);
}
