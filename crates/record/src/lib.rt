// The records of a program in another language, and of the replay: a call in 16 bytes, its kind first, 1 to 7 as in the
// replay (document 01, section 6), then the rest; an answer in 24.
#![tactic(auto)]

pub mod answer;
pub mod input;
pub mod kind;

ghost use Rattle.std.specs.Prelude.{◌≡◌};
ghost use Rattle.record.specs.Record.{cycle_in, call_of};

use bus::arbitration::Arbitration;
use call::Call;

// An M-cycle call by arbitration's answer, by its number; above 2 it is none. A TryFrom would need an error type that is dropped here.
#[tactic(auto, unfolding(crate::specs::Record::cycle_in))]
fn cycle(answer: u8) -> Option<Call>
    ensures { result ≡ cycle_in answer }
{
    match answer {
        0 => Some(Call::ObjectDmaCycle(Arbitration::Clear)),
        1 => Some(Call::ObjectDmaCycle(Arbitration::Contended)),
        2 => Some(Call::ObjectDmaCycle(Arbitration::Stall)),
        _ => None,
    }
}

// The call that a record says, if it is one. The kinds are numbers, as C writes them (include/cgb_vram_dma.h); calls.txt has them all.
#[tactic(auto, unfolding(crate::specs::Record::call_of))]
pub fn decode(bytes: [u8; 16]) -> Option<Call>
    ensures { result ≡ call_of bytes }
{
    match bytes[0] {
        1 => Some(Call::Write {
            address: input::address(bytes),
            input: input::write_input(bytes),
        }),
        8 => Some(Call::Read(input::address(bytes))),
        9 => Some(Call::Bus(input::bus_input(bytes))),
        27 => cycle(bytes[4]),
        29 => Some(Call::BusInside(input::hold_input(bytes))),
        _ => kind::plain(bytes).map(Call::Plain),
    }
}
