// Where a source address is read (vram_dma.rs, `read_hdma_source`; document 01's stand-in for
// `read_dma_storage`).
ghost use Rattle.std.specs.Prelude.{◌≡◌};
ghost use Rattle.bus.specs.Source.{source_byte, hdma_byte, object_byte};

use crate::vram_index;
use bus::commit::Banks;
use memory::byte_at;

// The byte at a source address; `video` is what 8000 to 9FFF gives.
#[tactic(auto, unfolding(bus::specs::Source::source_byte))]
pub fn read_source(video: u8, cartridge: &[u8], wram: &[u8], svbk: u8, address: u16) -> u8
    ensures { result ≡ source_byte video cartridge.now wram.now svbk address }
{
    let at = address as usize;
    match address {
        0x0000..=0x7FFF => byte_at(cartridge, at),
        0x8000..=0x9FFF => video,
        0xA000..=0xBFFF => byte_at(cartridge, at - 0x2000),
        0xC000..=0xCFFF => byte_at(wram, at - 0xC000),
        0xD000..=0xDFFF => byte_at(wram, memory::wram::banked(svbk, address - 0xD000)),
        0xE000.. => 0xFF,
    }
}

// VRAM does not answer its own DMA.
pub fn read_hdma_source(cartridge: &[u8], wram: &[u8], svbk: u8, address: u16) -> u8
    ensures { result ≡ hdma_byte cartridge.now wram.now svbk address }
{
    read_source(0xFF, cartridge, wram, svbk, address)
}

// Object DMA reads VRAM too, in the bank of FF4F. The slices come one by one: this call reads three, a bus call reads two and writes two.
pub fn read_object_source(
    banks: Banks,
    cartridge: &[u8],
    wram: &[u8],
    vram: &[u8],
    address: u16,
) -> u8
    ensures { result ≡ object_byte banks cartridge.now wram.now vram.now address }
{
    let video = byte_at(vram, vram_index(banks.vram, address));
    read_source(video, cartridge, wram, banks.svbk, address)
}
