// The calls that are lent no memory, through one function: what each said, and the state after.
#![tactic(auto)]

ghost use Rattle.std.specs.Prelude.{◌≡◌};
ghost use Rattle.plain.specs.Plain.{plain_performed};

use call::PlainCall;
use console::Cgb;
use told::Performed;

#[tactic(auto, unfolding(crate::specs::Plain::plain_performed))]
pub fn plain(state: Cgb, call: PlainCall) -> Performed
    ensures { result ≡ plain_performed state call }
{
    match call {
        PlainCall::Fall(input) => told::outcome(engine::vram_dma_fall_edge(state, input)),
        PlainCall::NextPair => told::outcome(engine::next_byte(state)),
        PlainCall::EscapeDrain => told::outcome(engine::vram_dma_drain_escape(state)),
        PlainCall::Switch(input) => told::outcome(engine::attempt_speed_switch(state, input)),
        PlainCall::LcdOff => told::outcome(engine::vram_dma_lcd_disabled(state)),
        PlainCall::InstructionRetired => told::outcome(engine::vram_dma_instruction_retired(state)),
        PlainCall::Blackout(elapsed) => told::outcome(engine::drain_speed_switch_blackout(
            state, elapsed,
        )),
        PlainCall::Wake(boundary) => told::outcome(engine::speed_switch_wake_ready(
            state, boundary,
        )),
        PlainCall::Arbitrate(input) => told::outcome(engine::vram_dma_arbitrate_oam(state, input)),
        PlainCall::ArbitrateInside(input) => told::outcome(engine::vram_dma_arbitrate_inside(
            state, input,
        )),
        PlainCall::Conflict(address) => told::quiet(
            told::of(engine::vram_dma_conflict_source(state, address)),
            state,
        ),
        PlainCall::Query(query) => told::quiet(ask::ask(state, query), state),
    }
}
