// A blackout (speed_switch.rs): what is asked of it, how it drains, and how a wake in it is taken in
// (`relock_edges`, `blackout_active`, `blackout_divider_active`, `drain_blackout`, `wake_intake_ready`).
#![tactic(auto)]

ghost use Rattle.std.specs.Prelude.{◌≡◌};
ghost use Rattle.blackout.specs.Blackout.{relock_edges, blackout_active, divider_active, latency_after_drain, latency_after_wake, drained_of, woken_of};

use arithmetic::pick::pick;
use console::Cgb;

// A flag, with the state after: both hold in every case, so no `Option` has this shape.
#[derive(Clone, Copy)]
pub struct Flagged {
    pub flag: bool,
    pub state: Cgb,
}

// Master edges of the clock's relock at the end of a blackout, at the new speed.
pub fn relock_edges(double_speed: bool) -> u32
    ensures { result ≡ relock_edges double_speed }
{
    pick(double_speed, 5, 2)
}

pub fn blackout_active(blackout: u32) -> bool
    ensures { result ≡ blackout_active blackout }
{
    blackout > 0
}

// The divider runs through a blackout and rests in its relock.
pub fn blackout_divider_active(double_speed: bool, blackout: u32) -> bool
    ensures { result ≡ divider_active double_speed blackout }
{
    blackout > relock_edges(double_speed)
}

// A blackout that has run out forgets the wake in flight. The flag is a value of the rule, and no step to run.
fn latency_after_drain(ended: bool, latency: Option<u8>) -> Option<u8>
    ensures { result ≡ latency_after_drain ended latency }
{
    pick(ended, None, latency)
}

// The flag: the blackout is over.
#[tactic(auto, unfolding(crate::specs::Blackout::drained_of))]
pub fn drain_blackout(s: Cgb, elapsed: u32) -> Flagged
    ensures { result ≡ drained_of elapsed s }
{
    let left = s.speed_switch_blackout.saturating_sub(elapsed);
    let latency = latency_after_drain(left == 0, s.speed_switch_wake_latency);
    Flagged {
        flag: left == 0,
        state: Cgb {
            speed_switch_blackout: left,
            speed_switch_wake_latency: latency,
            ..s
        },
    }
}

// The first call arms one M-cycle of latency; a boundary steps it.
fn latency_after_wake(latency: Option<u8>, mcycle_boundary: bool) -> u8
    ensures { result ≡ latency_after_wake mcycle_boundary latency }
{
    match latency {
        None => 1,
        Some(n) => pick(mcycle_boundary, n.saturating_sub(1), n),
    }
}

// The flag: the wake is ready.
#[tactic(auto, unfolding(crate::specs::Blackout::woken_of))]
pub fn wake_intake_ready(s: Cgb, mcycle_boundary: bool) -> Flagged
    ensures { result ≡ woken_of mcycle_boundary s }
{
    let n = latency_after_wake(s.speed_switch_wake_latency, mcycle_boundary);
    Flagged {
        flag: n == 0,
        state: Cgb {
            speed_switch_wake_latency: Some(n),
            ..s
        },
    }
}
