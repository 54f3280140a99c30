// The calls as one type, each with its inputs. Those that are lent no memory stand in a type of their own.
#![tactic(auto)]

pub mod query;

use bus::arbitration::{Arbitration, ArbitrationInput};
use bus::commit::BusInput;
use bus::hold::HoldInput;
use fall_edge::FallInput;
use map_write::WriteInput;
use query::Query;
use speed_switch::switch::SwitchInput;

#[derive(Clone, Copy)]
pub enum Call {
    Write { address: u16, input: WriteInput },
    Read(u16),
    Bus(BusInput),
    BusInside(HoldInput),
    ObjectDmaCycle(Arbitration),
    Plain(PlainCall),
}

#[derive(Clone, Copy)]
pub enum PlainCall {
    Fall(FallInput),
    NextPair,
    EscapeDrain,
    Switch(SwitchInput),
    LcdOff,
    InstructionRetired,
    Blackout(u32),
    Wake(bool),
    Arbitrate(ArbitrationInput),
    ArbitrateInside(HoldInput),
    Conflict(u16),
    Query(Query),
}
