// How long a General transfer takes (document 01, section 6; document 02, A5). It takes no state, so it is no call
// of the engine.
#![tactic(auto)]

ghost use Rattle.std.specs.Prelude.{◌≡◌};
ghost use Rattle.estimate.specs.Estimate.{estimate_of, transfer_time_of};
ghost use Rattle.estimate.specs.Counted.{Counted};

use arithmetic::pick::pick;

// M-cycles, from the value for FF55.
pub fn estimate(value: u8) -> u16
    ensures { result ≡ estimate_of value }
{
    (u16::from(value % 128) + 1) * 8
}

#[derive(Clone, Copy)]
pub struct TransferTime {
    pub bytes: u16,
    pub m_cycles: u16,
}

// At destination 0 the room is 65,536, which 16 bits do not hold.
fn bytes(value: u8, destination: u16) -> u16
    ensures { Counted value destination result }
{
    let length = (u32::from(value % 128) + 1) * 16;
    let room = 65536 - u32::from(destination);
    length.min(room) as u16
}

// From the value for FF55, of which bit 7 counts for nothing, and the destination register as it stands in
// front of that write, not the address in VRAM.
#[tactic(auto, unfolding(crate::specs::Estimate::transfer_time_of))]
pub fn transfer_time(value: u8, destination: u16, double_speed: bool) -> TransferTime
    ensures { result ≡ transfer_time_of value destination double_speed }
{
    let bytes = bytes(value, destination);
    TransferTime {
        bytes,
        m_cycles: pick(double_speed, bytes, bytes.div_ceil(2)),
    }
}
