// The shared bus: arbitration and the write conflict (lib.rs, `vram_dma_arbitrate_oam`,
// `vram_dma_conflict_source`).
ghost use Rattle.answers.specs.Answers.{Answers, outcome_says, arbitration_values, conflict_values};
ghost use Rattle.answers.specs.Queries.{Asked};
ghost use Rattle.bus_calls.specs.Bus.{arbitration_call_of, arbitration_said, conflict_found};

use answers::Outcome;
use answers::decided::reached;
use answers::query::asked;
use bus::arbitration::{Arbitration, ArbitrationInput};
use console::Cgb;
use console::refusal::Refusal;
use console::vram_dma::VramDma;

#[tactic(auto, unfolding(crate::specs::Bus::arbitration_call_of, crate::specs::Bus::arbitration_said))]
pub fn vram_dma_arbitrate_oam(state: Cgb, input: ArbitrationInput) -> Outcome<Arbitration>
    ensures { Answers (outcome_says arbitration_values) (arbitration_call_of state input) (arbitration_said state input) result }
{
    let arbitrated = oam_arbitration::arbitrate_oam_bus(state.vram_dma, state.double_speed, input);
    let vram_dma = VramDma {
        oam: arbitrated.oam,
        ..state.vram_dma
    };
    reached(state, arbitrated.answer, Cgb { vram_dma, ..state })
}

// The source of the byte that a read collides with. An address outside VRAM collides with nothing.
pub fn vram_dma_conflict_source(state: Cgb, address: u16) -> Result<Option<u16>, Refusal>
    ensures { Asked conflict_values state (conflict_found state address) result }
{
    let found = dma_status::write_conflict_source(state.vram_dma, state.double_speed, address);
    asked(state, found)
}
