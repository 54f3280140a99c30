// Arbitration and the bus call with object DMA's state from inside (document 02, A1): the calls of document 01, told by the state what a
// caller tells them.
ghost use Rattle.answers.specs.Answers.{Answers, outcome_says, arbitration_values};
ghost use Rattle.bus_calls.specs.Bus.{arbitration_call_of, arbitration_said};
ghost use Rattle.bus_calls.specs.BusCall.{AnswersBus};
ghost use Rattle.bus_calls.specs.Inside.{inside_arbitration, inside_bus};

use crate::bus_call::vram_dma_commit_bytes;
use answers::decided::reached;
use answers::{BusOutcome, Outcome};
use bus::arbitration::{Arbitration, ArbitrationInput};
use bus::commit::BusInput;
use bus::hold::HoldInput;
use console::Cgb;
use console::vram_dma::VramDma;

// Not by a call of the other form: a state that two calls hand to one function goes through memory, and a record of the replay takes a
// third more instructions.
#[tactic(auto, unfolding(crate::specs::Bus::arbitration_call_of, crate::specs::Bus::arbitration_said))]
pub fn vram_dma_arbitrate_inside(state: Cgb, input: HoldInput) -> Outcome<Arbitration>
    ensures { Answers (outcome_says arbitration_values) (arbitration_call_of state (inside_arbitration state input))
        (arbitration_said state (inside_arbitration state input)) result }
{
    let given = ArbitrationInput {
        hold: input.hold,
        suspended: input.suspended,
        oam_transferring: object_dma::runs(state.object_dma),
    };
    let arbitrated = oam_arbitration::arbitrate_oam_bus(state.vram_dma, state.double_speed, given);
    let vram_dma = VramDma {
        oam: arbitrated.oam,
        ..state.vram_dma
    };
    reached(state, arbitrated.answer, Cgb { vram_dma, ..state })
}

// The slices come one by one, as in the other form.
pub fn vram_dma_commit_bytes_inside(
    state: Cgb,
    input: HoldInput,
    cartridge: &[u8],
    wram: &[u8],
    vram: &mut [u8],
    oam: &mut [u8],
) -> BusOutcome
    ensures { AnswersBus state (inside_bus state input) cartridge.now wram.now vram.old oam.old
        result vram.new oam.new }
{
    let given = BusInput {
        hold: input.hold,
        suspended: input.suspended,
        oam_start_edge: state.object_dma.start_edge,
    };
    vram_dma_commit_bytes(state, given, cartridge, wram, vram, oam)
}
