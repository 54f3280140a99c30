// Work RAM's banks (registers.rs, `wram_bank`, `wram_index`).
ghost use Rattle.std.specs.Prelude.{◌≡◌};
ghost use Rattle.memory.specs.Wram.{wram_bank, banked_index};

// The bank at D000 to DFFF: SVBK, but 1 for 0.
pub fn wram_bank(svbk: u8) -> u8
    ensures { result ≡ wram_bank svbk }
{
    if svbk == 0 { 1 } else { svbk }
}

// The index into work RAM of an offset into the selected bank.
pub fn banked(svbk: u8, within: u16) -> usize
    ensures { result ≡ banked_index svbk within }
{
    let bank = wram_bank(svbk);
    (bank as usize) * 4096 + (within as usize)
}
