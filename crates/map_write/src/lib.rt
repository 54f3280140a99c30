// Writes of the address map (registers.rs, `map_write_byte`): a choice by address.
#![tactic(auto)]

ghost use Rattle.std.specs.Prelude.{◌≡◌};
ghost use Rattle.map_write.specs.Write.{state_if_mapped, register_stored_of, register_write_of, map_write_of, wram_after};

use console::Cgb;
use hdma::{hdma5, pointer};
use memory::put_at;
use registers::extra_oam::extra_oam_with;
use registers::{compat_locks, wram_index};

// What a write is given beside the address.
#[derive(Clone, Copy)]
pub struct WriteInput {
    pub value: u8,
    // FF55 alone looks at it.
    pub lcd_on: bool,
    // The master edge at which object DMA starts: FF46 alone looks at it.
    pub oam_start_edge: u64,
}

// A write where work RAM does not answer and nothing is locked.
#[tactic(auto, unfolding(crate::specs::Write::register_stored_of, crate::specs::Write::stored_of, registers::specs::Map::place_of))]
fn store_register(mut s: Cgb, address: u16, input: WriteInput) -> Option<Cgb>
    ensures { result ≡ state_if_mapped (register_stored_of s input address) }
{
    let v = input.value;
    match address {
        0xFEA0..=0xFEFF => s.extra_oam = extra_oam_with(s.extra_oam, address, v),
        0xFF46 => s.object_dma = object_dma::start(v, input.oam_start_edge),
        0xFF4C => {}
        0xFF4D => s.key1_armed = v % 2 == 1,
        0xFF4F => s.vram.selected = v % 2,
        0xFF51 => s.vram_dma.cursor.source = pointer::with_high(s.vram_dma.cursor.source, v),
        0xFF52 => s.vram_dma.cursor.source = pointer::with_low(s.vram_dma.cursor.source, v),
        0xFF53 => s.vram_dma.cursor.dest = pointer::with_high(s.vram_dma.cursor.dest, v),
        0xFF54 => s.vram_dma.cursor.dest = pointer::with_low(s.vram_dma.cursor.dest, v),
        0xFF55 => s.vram_dma = hdma5::write_hdma5(s.vram_dma, v, input.lcd_on),
        0xFF70 => s.svbk = v % 8,
        0xFF72 => s.ff72 = v,
        0xFF73 => s.ff73 = v,
        0xFF74 => s.ff74 = v,
        0xFF75 => s.ff75 = v / 16 % 8 * 16,
        _ => return None,
    }
    Some(s)
}

// A write where work RAM does not answer.
#[tactic(auto, using(crate::proofs::Ram::lock_keeps, crate::proofs::Ram::lock_free))]
fn register_write(s: Cgb, address: u16, input: WriteInput) -> Option<Cgb>
    ensures { result ≡ state_if_mapped (register_write_of s input address) }
{
    if s.dmg_compat & compat_locks(address) {
        Some(s)
    } else {
        store_register(s, address, input)
    }
}

// The state after a write; nothing off the map, where work RAM is kept too.
#[tactic(auto, using(crate::proofs::Ram::ram_state, crate::proofs::Ram::beyond_ram, crate::proofs::Ram::ram_written, crate::proofs::Ram::ram_kept))]
pub fn map_write_byte(s: Cgb, wram: &mut [u8], address: u16, input: WriteInput) -> Option<Cgb>
    ensures state { result ≡ state_if_mapped (map_write_of s input address) }
    ensures memory { wram.new ≡ wram_after s wram.old input.value address }
{
    match wram_index(s.svbk, address) {
        Some(i) => {
            put_at(wram, i, input.value);
            Some(s)
        }
        None => register_write(s, address, input),
    }
}
