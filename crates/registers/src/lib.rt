// The address map (registers.rs): where an address lies in work RAM or in the extra OAM rows, and which registers
// compat locks.
#![tactic(auto)]

pub mod extra_oam;

ghost use Rattle.std.specs.Prelude.{◌≡◌};
ghost use Rattle.registers.specs.Map.{locks_at};
ghost use Rattle.registers.specs.Ram.{wram_index_of};

use memory::wram::banked;

// Where an address lies in work RAM.
#[tactic(auto, unfolding(crate::specs::Ram::wram_index_of, crate::specs::Map::place_of))]
pub fn wram_index(svbk: u8, address: u16) -> Option<usize>
    ensures { result ≡ wram_index_of svbk address }
{
    match address {
        0xC000..=0xCFFF => Some((address - 0xC000) as usize),
        0xD000..=0xDFFF => Some(banked(svbk, address - 0xD000)),
        0xE000..=0xEFFF => Some((address - 0xE000) as usize),
        0xF000..=0xFDFF => Some(banked(svbk, address - 0xF000)),
        _ => None,
    }
}

// The registers that compat locks against writes.
#[tactic(auto, unfolding(crate::specs::Map::locks_at, crate::specs::Map::place_of))]
pub fn compat_locks(address: u16) -> bool
    ensures { result ≡ locks_at address }
{
    matches!(address, 0xFF4D | 0xFF51..=0xFF55 | 0xFF70 | 0xFF74)
}
