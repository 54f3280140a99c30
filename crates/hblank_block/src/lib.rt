// The block's part of each stage. A bool that says whether a step runs (`clear`, `back`, `joins`, `none`, `takes`, `committing`,
// `seizes`) is no closure: each step is a definition of the paper over its flag, with one equation for both cases, and the stage
// decides once, for the arbiter too; a closure would hide the decision from the contract. `drop_if` and `take_if` are no twins: each is
// its own step, of other fields.
#![tactic(auto)]

ghost use Rattle.std.specs.Prelude.{◌≡◌};
ghost use Rattle.fall_stages.specs.Fall.{still_block, settled_block, taken_clears, kept_taken, reverts, judged_block, joins_halt, dropped_block};
ghost use Rattle.fall_stages.specs.Fall.{taken_if, precharged, armed_unless, commit_block, readied_block, seizure_count, seized_block};

use arithmetic::pick::pick;
use console::vram_dma::{HaltArbiter, HblankBlock};
use countdown::Countdown;
use fall_stages::View;

pub fn still(b: HblankBlock) -> bool
    ensures { result ≡ still_block b }
{
    (b.remaining == 0) & !b.setup_cells.active() & !b.ready_in.active() & !b.arm_ready_probation
}

pub fn settle(b: HblankBlock, in_hblank: bool) -> HblankBlock
    ensures { result ≡ settled_block in_hblank b }
{
    HblankBlock {
        taken: b.taken & in_hblank,
        seize_falls: 0,
        ..b
    }
}

// Outside mode 0, running or within the M-cycle of the halt latch.
pub fn taken_clears(v: View, halted_falls: u8) -> bool
    ensures { result ≡ taken_clears v halted_falls }
{
    !v.in_hblank & (!v.cpu_halted | (halted_falls <= pick(v.double_speed, 2, 4)))
}

pub fn keep_taken(b: HblankBlock, clear: bool) -> HblankBlock
    ensures { result ≡ kept_taken clear b }
{
    HblankBlock {
        taken: b.taken & !clear,
        ..b
    }
}

pub fn reverts(b: HblankBlock, v: View) -> bool
    ensures { result ≡ reverts v b }
{
    b.arm_ready_probation & !v.in_hblank & b.from_arm & (b.remaining == 16)
}

#[tactic(auto, unfolding(fall_stages::specs::Fall::judged_block))]
pub fn judge(b: HblankBlock, back: bool) -> HblankBlock
    ensures { result ≡ judged_block back b }
{
    HblankBlock {
        remaining: pick(back, 0, b.remaining),
        from_arm: b.from_arm & !back,
        arm_ready_probation: false,
        ..b
    }
}

pub fn joins_halt(b: HblankBlock, v: View) -> bool
    ensures { result ≡ joins_halt v b }
{
    v.cpu_halted & !v.was_halted & (b.remaining == 16) & b.ready_in.active()
}

#[tactic(auto, unfolding(fall_stages::specs::Fall::dropped_block))]
pub fn drop_if(b: HblankBlock, joins: bool) -> HblankBlock
    ensures { result ≡ dropped_block joins b }
{
    if joins {
        return HblankBlock {
            remaining: 0,
            setup_cells: b.setup_cells.clear(),
            ready_in: b.ready_in.clear(),
            ..b
        };
    }
    b
}

pub fn take_if(b: HblankBlock, takes: bool) -> HblankBlock
    ensures { result ≡ taken_if takes b }
{
    HblankBlock {
        taken: b.taken | takes,
        ..b
    }
}

// The grant charged the set-up during the halt.
fn precharged(a: HaltArbiter, v: View) -> bool
    ensures { result ≡ precharged v a }
{
    a.pend_granted & !v.in_hblank & !v.cpu_halted
}

fn armed_unless(none: bool, ticks: u8) -> Countdown
    ensures { result ≡ armed_unless none ticks }
{
    Countdown(0).arm(pick(none, 0, ticks))
}

#[tactic(auto, unfolding(fall_stages::specs::Fall::commit_block))]
pub fn commit(b: HblankBlock, v: View, a: HaltArbiter, committing: bool) -> HblankBlock
    ensures { result ≡ commit_block committing v a b }
{
    if committing {
        let charged = precharged(a, v);
        return HblankBlock {
            remaining: 16,
            start_edge: v.master_edge,
            taken: true,
            setup_cells: armed_unless(a.pend_from_arm | charged, 1),
            ready_in: armed_unless(charged, 2),
            from_arm: a.pend_from_arm,
            ..b
        };
    }
    b
}

#[tactic(auto, unfolding(fall_stages::specs::Fall::readied_block))]
pub fn step_readiness(b: HblankBlock, double_speed: bool) -> HblankBlock
    ensures { result ≡ readied_block double_speed b }
{
    let ready = b.ready_in.expired();
    let probation = ready.flag & b.from_arm & (b.remaining == 16) & !double_speed;
    HblankBlock {
        ready_in: ready.next,
        arm_ready_probation: b.arm_ready_probation | probation,
        ..b
    }
}

// As the arbiter counts halted falls: either count is a sentence of the paper with a definition of its own, and one line long.
fn seizure_count(seizes: bool, n: u8) -> u8
    ensures { result ≡ seizure_count seizes n }
{
    pick(seizes, n.saturating_add(1), 0)
}

#[tactic(auto, unfolding(fall_stages::specs::Fall::seized_block))]
pub fn count_seizure(b: HblankBlock, seizes: bool) -> HblankBlock
    ensures { result ≡ seized_block seizes b }
{
    HblankBlock {
        seize_falls: seizure_count(seizes, b.seize_falls),
        ..b
    }
}
