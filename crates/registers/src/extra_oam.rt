// The extra OAM rows at FEA0 to FEFF (registers.rs, `extra_oam_index`).
ghost use Rattle.std.specs.Prelude.{◌≡◌, get_or, set};
ghost use Rattle.registers.specs.Map.{extra_oam_index};

use memory::{byte_at, put_at};

// The index into the rows of an address from FEA0 to FEFF: address bits 3 and 4 are ignored.
pub fn extra_oam_index(address: u16) -> usize
    ensures { result ≡ extra_oam_index address }
{
    let row = (address / 32 % 8).saturating_sub(5);
    (row * 8 + address % 8) as usize
}

pub fn extra_oam_byte(rows: [u8; 24], address: u16) -> u8
    ensures { result ≡ get_or rows (extra_oam_index address) 0 }
{
    byte_at(&rows, extra_oam_index(address))
}

pub fn extra_oam_with(mut rows: [u8; 24], address: u16, value: u8) -> [u8; 24]
    ensures { result ≡ set rows (extra_oam_index address) value }
{
    put_at(&mut rows, extra_oam_index(address), value);
    rows
}
