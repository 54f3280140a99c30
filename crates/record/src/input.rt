// The inputs of a call in its record of 16 bytes, numbers lowest byte first. Other bytes and bits are ignored.
// A flag is a bit of byte 5, by quotient and rest as its definition says it: as `flags & 2 != 0` the proof did not close.
ghost use Rattle.std.specs.Prelude.{◌≡◌};
ghost use Rattle.record.specs.Input.{edge_of, address_of, elapsed_of, boundary_of, write_input_of, fall_input_of, switch_input_of, bus_input_of, arbitration_input_of, hold_input_of};

use arithmetic::bytes::bytes_at;
use bus::arbitration::ArbitrationInput;
use bus::commit::BusInput;
use bus::hold::HoldInput;
use fall_edge::FallInput;
use map_write::WriteInput;
use speed_switch::switch::SwitchInput;

pub fn edge(bytes: [u8; 16]) -> u64
    ensures { result ≡ edge_of bytes }
{
    u64::from_le_bytes(bytes_at(&bytes, 8))
}

pub fn address(bytes: [u8; 16]) -> u16
    ensures { result ≡ address_of bytes }
{
    u16::from_le_bytes(bytes_at(&bytes, 2))
}

pub fn elapsed(bytes: [u8; 16]) -> u32
    ensures { result ≡ elapsed_of bytes }
{
    u32::from_le_bytes(bytes_at(&bytes, 8))
}

pub fn write_input(bytes: [u8; 16]) -> WriteInput
    ensures { result ≡ write_input_of bytes }
{
    WriteInput {
        value: bytes[4],
        lcd_on: bytes[5] != 0,
        oam_start_edge: edge(bytes),
    }
}

#[tactic(auto, unfolding(crate::specs::Input::fall_input_of))]
pub fn fall_input(bytes: [u8; 16]) -> FallInput
    ensures { result ≡ fall_input_of bytes }
{
    let flags = bytes[5];
    FallInput {
        mode: bytes[4],
        halted: flags % 2 == 1,
        irq_latched: flags / 2 % 2 == 1,
        stopped: flags / 4 % 2 == 1,
        master_edge: edge(bytes),
        oam_owns_bus: flags / 8 % 2 == 1,
    }
}

#[tactic(auto, unfolding(crate::specs::Input::switch_input_of))]
pub fn switch_input(bytes: [u8; 16]) -> SwitchInput
    ensures { result ≡ switch_input_of bytes }
{
    let flags = bytes[5];
    SwitchInput {
        hold: flags % 2 == 1,
        dot_phase: bytes[4],
        interrupt_ready: flags / 2 % 2 == 1,
        master_edge: edge(bytes),
    }
}

#[tactic(auto, unfolding(crate::specs::Input::bus_input_of))]
pub fn bus_input(bytes: [u8; 16]) -> BusInput
    ensures { result ≡ bus_input_of bytes }
{
    let flags = bytes[5];
    BusInput {
        hold: flags % 2 == 1,
        suspended: flags / 2 % 2 == 1,
        oam_start_edge: edge(bytes),
    }
}

#[tactic(auto, unfolding(crate::specs::Input::arbitration_input_of))]
pub fn arbitration_input(bytes: [u8; 16]) -> ArbitrationInput
    ensures { result ≡ arbitration_input_of bytes }
{
    let flags = bytes[5];
    ArbitrationInput {
        hold: flags % 2 == 1,
        suspended: flags / 2 % 2 == 1,
        oam_transferring: flags / 4 % 2 == 1,
    }
}

#[tactic(auto, unfolding(crate::specs::Input::hold_input_of))]
pub fn hold_input(bytes: [u8; 16]) -> HoldInput
    ensures { result ≡ hold_input_of bytes }
{
    let flags = bytes[5];
    HoldInput {
        hold: flags % 2 == 1,
        suspended: flags / 2 % 2 == 1,
    }
}

pub fn boundary(bytes: [u8; 16]) -> bool
    ensures { result ≡ boundary_of bytes }
{
    bytes[5] % 2 == 1
}
