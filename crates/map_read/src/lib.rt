// Reads of the address map (registers.rs, `map_read_byte`): a choice by address.
#![tactic(auto)]

ghost use Rattle.std.specs.Prelude.{◌≡◌};
ghost use Rattle.map_read.specs.Read.{key1_byte, register_read_of, map_read_of};

use arithmetic::pick::pick;
use console::Cgb;
use hdma::hdma5;
use memory::byte_at;
use registers::extra_oam::extra_oam_byte;
use registers::wram_index;

// KEY1, read.
fn key1_byte(double_speed: bool, armed: bool) -> u8
    ensures { result ≡ key1_byte double_speed armed }
{
    0x7E + 128 * double_speed as u8 + armed as u8
}

// A read where work RAM does not answer.
#[tactic(auto, unfolding(crate::specs::Read::register_read_of, crate::specs::Read::map_read_of, registers::specs::Map::place_of))]
fn register_read(s: Cgb, address: u16) -> Option<u8>
    ensures { result ≡ register_read_of s address }
{
    match address {
        0xFEA0..=0xFEFF => Some(extra_oam_byte(s.extra_oam, address)),
        0xFF4C => Some(pick(s.dmg_compat, 0xFF, 0x00)),
        0xFF4D => Some(pick(s.dmg_compat, 0xFF, key1_byte(s.double_speed, s.key1_armed))),
        0xFF4F => Some(0xFE + s.vram.selected % 2),
        0xFF51..=0xFF54 => Some(0xFF),
        0xFF55 => Some(hdma5::status_byte(s.vram_dma)),
        0xFF70 => Some(pick(s.dmg_compat, 0xFF, 0xF8 + s.svbk % 8)),
        0xFF72 => Some(s.ff72),
        0xFF73 => Some(s.ff73),
        0xFF74 => Some(pick(s.dmg_compat, 0xFF, s.ff74)),
        0xFF75 => Some(0x8F + s.ff75 / 16 % 8 * 16),
        _ => None,
    }
}

// What stands at an address; nothing off the map.
#[tactic(auto, using(crate::proofs::Ram::ram_read, crate::proofs::Ram::beyond_ram))]
pub fn map_read_byte(s: Cgb, wram: &[u8], address: u16) -> Option<u8>
    ensures { result ≡ map_read_of s wram.now address }
{
    match wram_index(s.svbk, address) {
        Some(i) => Some(byte_at(wram, i)),
        None => register_read(s, address),
    }
}
