// Where a byte is read and where it is stored: document 01's stand-ins for `read_dma_storage` and `dma_commit`.
#![tactic(auto)]

pub mod source;
pub mod store;

ghost use Rattle.std.specs.Prelude.{◌≡◌, ◌+◌, ◌-◌, ◌*◌};

// Where VRAM has the byte of an address, in the bank of FF4F.
fn vram_index(bank: u8, address: u16) -> usize
    ensures { result ≡ bank * 8192 + (address - 0x8000) }
{
    let within = address.saturating_sub(0x8000);
    (bank as usize) * 8192 + (within as usize)
}
