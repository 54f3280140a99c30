// Steps 2 to 5 of a fall: what it sees, what is done gated or not (halted falls, taken, the wake, probation, the halt latch), and
// the gate. Each stage makes anew only the part that it touches.
#![tactic(auto)]

ghost use Rattle.std.specs.Prelude.{◌≡◌};
ghost use Rattle.fall_stages.specs.Fall.{gates, view_of, observed_of, probation_of, halt_latch_of, started_of, refilled_of, gated_of};

use console::vram_dma::{TransferCursor, TransferMode, VramDma};
use fall_stages::{FallInput, View};

// Document 01's "gated": stopped, or halted without a latched IRQ.
pub fn gates(i: FallInput) -> bool
    ensures { result ≡ gates i }
{
    (i.halted & !i.irq_latched) | i.stopped
}

#[tactic(auto, unfolding(fall_stages::specs::Fall::view_of))]
pub fn view(i: FallInput, d: VramDma, double_speed: bool) -> View
    ensures { result ≡ view_of i double_speed d }
{
    let in_hblank = i.mode == 0;
    View {
        in_hblank,
        entry_edge: in_hblank & !d.arb.prev_view_hblank,
        cpu_halted: i.halted,
        was_halted: d.arb.prev_cpu_halted,
        armed: d.cursor.mode == TransferMode::HBlank,
        double_speed,
        master_edge: i.master_edge,
        oam_owns_bus: i.oam_owns_bus,
    }
}

// The view, the halted falls, the taken-clear and a wake's blind.
#[tactic(auto, unfolding(fall_stages::specs::Fall::observed_of))]
fn observe(d: VramDma, v: View) -> VramDma
    ensures { result ≡ observed_of v d }
{
    let arb = halt_arbiter::observe(d.arb, v);
    let clear = hblank_block::taken_clears(v, arb.halted_falls);
    let block = hblank_block::keep_taken(d.block, clear);
    VramDma { block, arb, ..d }
}

// A launch that readied outside mode 0 reverts.
#[tactic(auto, unfolding(fall_stages::specs::Fall::probation_of))]
fn judge_probation(d: VramDma, v: View) -> VramDma
    ensures { result ≡ probation_of v d }
{
    let back = hblank_block::reverts(d.block, v);
    let block = hblank_block::judge(d.block, back);
    let arb = halt_arbiter::ungrant(d.arb, back);
    VramDma { block, arb, ..d }
}

// A block not yet ready at the halt latch becomes a granted pend.
#[tactic(auto, unfolding(fall_stages::specs::Fall::halt_latch_of))]
fn join_halt(d: VramDma, v: View) -> VramDma
    ensures { result ≡ halt_latch_of v d }
{
    let joins = hblank_block::joins_halt(d.block, v);
    let block = hblank_block::drop_if(d.block, joins);
    let arb = halt_arbiter::join_halt(d.arb, v.cpu_halted, joins);
    VramDma { block, arb, ..d }
}

// Steps 3 and 4: what is done gated or not.
#[tactic(auto, unfolding(fall_stages::specs::Fall::started_of))]
pub fn start(d: VramDma, v: View) -> VramDma
    ensures { result ≡ started_of v d }
{
    join_halt(judge_probation(observe(d, v), v), v)
}

// The speed comes beside the engine: it is the console's.
#[tactic(auto, unfolding(fall_stages::specs::Fall::refilled_of))]
pub fn refill(d: VramDma, double_speed: bool) -> VramDma
    ensures { result ≡ refilled_of double_speed d }
{
    let moving = next_pair::moving(d);
    let cursor = TransferCursor {
        quota: next_pair::quota(moving, double_speed),
        ..d.cursor
    };
    VramDma { cursor, ..d }
}

// Step 5: a pend ages, and an entry in the halt pends or grants.
#[tactic(auto, unfolding(fall_stages::specs::Fall::gated_of))]
pub fn gate(d: VramDma, v: View) -> VramDma
    ensures { result ≡ gated_of v d }
{
    let pends = v.cpu_halted & v.entry_edge & v.armed & !d.block.taken & (d.cursor.remaining > 0);
    let arb = halt_arbiter::in_halt(d.arb, v, pends, d.cursor.remaining / 16);
    refill(VramDma { arb, ..d }, v.double_speed)
}
