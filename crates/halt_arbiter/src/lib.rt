// The arbiter's part of each stage. A bool that says whether a step runs (`back`, `joins`, `halted`, `arms`, `pends`, `grants`,
// `committing`) is no closure: each step is a definition of the paper over its flag, with one equation for both cases, and the stage
// decides once, for the block too; a closure would hide the decision from the contract. `pend_if` and `grant_if` are no twins: each is
// its own step, of other fields.
#![tactic(auto)]

ghost use Rattle.std.specs.Prelude.{◌≡◌, ◌&&◌, cond};
ghost use Rattle.countdown.specs.Countdown.{armed};
ghost use Rattle.fall_stages.specs.Fall.{still_arb, settled_arb, halted_falls_of, observed_arb, ungranted_arb, halt_latch_arb};
ghost use Rattle.fall_stages.specs.Fall.{aged_arb, pended_arb, grants, granted_arb, blinded, blinds_arb, drives, commit_arb};
ghost use Rattle.fall_stages.specs.Fall.{consumes, tenure_arb, pend_arb};

use arithmetic::pick::pick;
use console::vram_dma::HaltArbiter;
use countdown::Countdown;
use fall_stages::View;

// The arbiter after its blinds or its tenure ticked. Passed over: an entry fell into one of them, and this HBlank is
// taken without service. Both parts always stand, so no Option.
#[derive(Clone, Copy)]
pub struct ArbTicked {
    pub arb: HaltArbiter,
    pub passed_over: bool,
}

pub fn still(a: HaltArbiter) -> bool
    ensures { result ≡ still_arb a }
{
    !a.pend
        & !a.pend_granted
        & !a.prev_cpu_halted
        & !a.armed_this_fall
        & !a.halt_wake_blind.active()
        & !a.wake_pend_blind.active()
        & !a.wake_tenure.active()
}

pub fn settle(a: HaltArbiter, in_hblank: bool) -> HaltArbiter
    ensures { result ≡ settled_arb in_hblank a }
{
    HaltArbiter {
        halted_falls: 0,
        prev_view_hblank: in_hblank,
        ..a
    }
}

fn halted_falls(halted: bool, n: u8) -> u8
    ensures { result ≡ halted_falls_of halted n }
{
    pick(halted, n.saturating_add(1), 0)
}

fn armed_if(arms: bool, countdown: Countdown, falls: u8) -> Countdown
    ensures { result ≡ cond arms (armed falls) countdown }
{
    pick(arms, countdown.arm(falls), countdown)
}

#[tactic(auto, unfolding(fall_stages::specs::Fall::observed_arb))]
pub fn observe(a: HaltArbiter, v: View) -> HaltArbiter
    ensures { result ≡ observed_arb v a }
{
    HaltArbiter {
        halted_falls: halted_falls(v.cpu_halted, a.halted_falls),
        prev_view_hblank: v.in_hblank,
        // a wake blinds the entries of the next falls
        halt_wake_blind: armed_if(v.was_halted & !v.cpu_halted, a.halt_wake_blind, 3),
        ..a
    }
}

// A reverted launch is not granted after all.
#[tactic(auto, unfolding(fall_stages::specs::Fall::ungranted_arb))]
pub fn ungrant(a: HaltArbiter, back: bool) -> HaltArbiter
    ensures { result ≡ ungranted_arb back a }
{
    HaltArbiter {
        granted_ahead: pick(back, a.granted_ahead.saturating_sub(1), a.granted_ahead),
        ..a
    }
}

#[tactic(auto, unfolding(fall_stages::specs::Fall::halt_latch_arb))]
pub fn join_halt(a: HaltArbiter, halted: bool, joins: bool) -> HaltArbiter
    ensures { result ≡ halt_latch_arb halted joins a }
{
    if joins {
        return HaltArbiter {
            pend: true,
            pend_age: 0,
            pend_granted: true,
            grant_counted: true,
            prev_cpu_halted: halted,
            ..a
        };
    }
    HaltArbiter {
        prev_cpu_halted: halted,
        ..a
    }
}

// A standing pend ages in the halt.
#[tactic(auto, unfolding(fall_stages::specs::Fall::aged_arb))]
fn age(a: HaltArbiter) -> HaltArbiter
    ensures { result ≡ aged_arb a }
{
    HaltArbiter {
        pend_age: pick(a.pend, a.pend_age.saturating_add(1), a.pend_age),
        ..a
    }
}

#[tactic(auto, unfolding(fall_stages::specs::Fall::pended_arb))]
fn pend_if(a: HaltArbiter, pends: bool) -> HaltArbiter
    ensures { result ≡ pended_arb pends a }
{
    if pends {
        return HaltArbiter {
            pend: true,
            pend_from_arm: false,
            pend_age: 0,
            ..a
        };
    }
    a
}

#[tactic(auto, unfolding(fall_stages::specs::Fall::grants))]
fn grants(a: HaltArbiter, v: View, blocks: u16) -> bool
    ensures { result ≡ grants v blocks a }
{
    v.cpu_halted
        & v.entry_edge
        & v.armed
        & (a.halted_falls <= 2)
        & (blocks > u16::from(a.granted_ahead))
}

#[tactic(auto, unfolding(fall_stages::specs::Fall::granted_arb))]
fn grant_if(a: HaltArbiter, grants: bool) -> HaltArbiter
    ensures { result ≡ granted_arb grants a }
{
    HaltArbiter {
        pend_granted: a.pend_granted | grants,
        grant_counted: a.grant_counted | grants,
        granted_ahead: pick(grants, a.granted_ahead.saturating_add(1), a.granted_ahead),
        ..a
    }
}

// Gated: age, pend at an entry, grant at an entry.
pub fn in_halt(a: HaltArbiter, v: View, pends: bool, blocks: u16) -> HaltArbiter
    ensures { result ≡ granted_arb (grants v blocks a) (pended_arb pends (aged_arb a)) }
{
    let grants = grants(a, v, blocks);
    grant_if(pend_if(age(a), pends), grants)
}

// Both blinds tick. The first tick of the blind of 6, which a switch arms, passes nothing over.
#[tactic(auto, unfolding(fall_stages::specs::Fall::blinds_arb))]
pub fn step_blinds(a: HaltArbiter, v: View) -> ArbTicked
    ensures { result ≡ record { arb = blinds_arb a; passed_over = blinded v a } }
{
    let halt = a.halt_wake_blind.tick();
    let first = a.wake_pend_blind.remaining() == 6;
    let wake = a.wake_pend_blind.tick();
    ArbTicked {
        arb: HaltArbiter {
            halt_wake_blind: halt.next,
            wake_pend_blind: wake.next,
            ..a
        },
        passed_over: (halt.flag & v.entry_edge) | (wake.flag & v.entry_edge & !first),
    }
}

// The commit is granted, outside mode 0.
fn drives(a: HaltArbiter, v: View) -> bool
    ensures { result ≡ drives v a }
{
    a.pend_granted & !v.in_hblank
}

#[tactic(auto, unfolding(fall_stages::specs::Fall::commit_arb))]
pub fn commit(a: HaltArbiter, v: View, committing: bool) -> HaltArbiter
    ensures { result ≡ commit_arb committing v a }
{
    if committing {
        return HaltArbiter {
            pend_granted: false,
            wake_tenure: armed_if(drives(a, v), a.wake_tenure, 36),
            park_waits_for_fetch: !(a.pend_from_arm | (v.cpu_halted | v.was_halted)),
            idle_claim: false,
            grant_counted: false,
            granted_ahead: pick(
                a.grant_counted,
                a.granted_ahead,
                a.granted_ahead.saturating_add(1),
            ),
            ..a
        };
    }
    HaltArbiter {
        pend_granted: a.pend_granted & v.cpu_halted,
        ..a
    }
}

// The tenure ticks; an entry that it passes over claims where bytes are left.
#[tactic(auto, unfolding(fall_stages::specs::Fall::tenure_arb))]
pub fn step_tenure(a: HaltArbiter, v: View, bytes_left: bool) -> ArbTicked
    ensures { result ≡ record { arb = tenure_arb (consumes v a && bytes_left) a; passed_over = consumes v a } }
{
    let tenure = a.wake_tenure.tick();
    let consumes = tenure.flag & v.entry_edge;
    ArbTicked {
        arb: HaltArbiter {
            wake_tenure: tenure.next,
            idle_claim: a.idle_claim | (consumes & bytes_left),
            ..a
        },
        passed_over: consumes,
    }
}

#[tactic(auto, unfolding(fall_stages::specs::Fall::pend_arb))]
pub fn renew_pend(a: HaltArbiter, pends: bool) -> HaltArbiter
    ensures { result ≡ pend_arb pends a }
{
    if pends {
        return HaltArbiter {
            pend: true,
            pend_from_arm: a.armed_this_fall,
            armed_this_fall: false,
            pend_age: 0,
            ..a
        };
    }
    HaltArbiter {
        pend: false,
        armed_this_fall: false,
        ..a
    }
}
