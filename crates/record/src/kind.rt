// The kinds of the calls that are lent no memory. Written by tools/calls from calls.txt. A number of the record's alone, so it is
// a match here and no TryFrom of `Query`: that would need an error type that is dropped.
ghost use Rattle.std.specs.Prelude.{◌≡◌};
ghost use Rattle.record.specs.Kind.{plain_of, query_of, query_kind};

use crate::input;
use call::PlainCall;
use call::query::Query;

#[tactic(auto, unfolding(crate::specs::Kind::query_kind))]
fn query(kind: u8) -> Option<Query>
    ensures { result ≡ query_kind kind }
{
    match kind {
        14 => Some(Query::Tally),
        15 => Some(Query::Status),
        16 => Some(Query::Claim),
        17 => Some(Query::ParkWaits),
        18 => Some(Query::RequestStanding),
        19 => Some(Query::HoldsCpu),
        20 => Some(Query::SeizesBus),
        21 => Some(Query::SwitchInProgress),
        22 => Some(Query::DividerActive),
        23 => Some(Query::DoubleSpeed),
        24 => Some(Query::CpuStepsPerDot),
        25 => Some(Query::WramBank),
        26 => Some(Query::SvbkRegister),
        30 => Some(Query::ObjectDma),
        _ => None,
    }
}

#[tactic(auto, unfolding(crate::specs::Kind::plain_of))]
pub fn plain(bytes: [u8; 16]) -> Option<PlainCall>
    ensures { result ≡ plain_of bytes }
{
    match bytes[0] {
        2 => Some(PlainCall::Fall(input::fall_input(bytes))),
        3 => Some(PlainCall::NextPair),
        4 => Some(PlainCall::Switch(input::switch_input(bytes))),
        5 => Some(PlainCall::LcdOff),
        6 => Some(PlainCall::EscapeDrain),
        7 => Some(PlainCall::Blackout(input::elapsed(bytes))),
        10 => Some(PlainCall::Arbitrate(input::arbitration_input(bytes))),
        11 => Some(PlainCall::Conflict(input::address(bytes))),
        12 => Some(PlainCall::Wake(input::boundary(bytes))),
        13 => Some(PlainCall::InstructionRetired),
        28 => Some(PlainCall::ArbitrateInside(input::hold_input(bytes))),
        kind => query(kind).map(PlainCall::Query),
    }
}
