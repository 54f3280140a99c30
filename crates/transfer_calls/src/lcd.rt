// The LCD goes off, an instruction retires (lib.rs, `vram_dma_lcd_disabled`, `vram_dma_instruction_retired`).
ghost use Rattle.answers.specs.Answers.{Answers, outcome_says, done_values};
ghost use Rattle.transfer_calls.specs.Lcd.{lcd_call_of, retired_call_of, done_said};

use answers::Outcome;
use answers::decided::reached;
use console::Cgb;

#[tactic(auto, unfolding(crate::specs::Lcd::lcd_call_of, crate::specs::Lcd::done_said))]
pub fn vram_dma_lcd_disabled(state: Cgb) -> Outcome<()>
    ensures { Answers (outcome_says done_values) (lcd_call_of state) (done_said state) result }
{
    let after = Cgb {
        vram_dma: dma_events::on_lcd_disabled(state.vram_dma),
        switch_relock_debit: false,
        ..state
    };
    reached(state, (), after)
}

#[tactic(auto, unfolding(crate::specs::Lcd::retired_call_of, crate::specs::Lcd::done_said))]
pub fn vram_dma_instruction_retired(state: Cgb) -> Outcome<()>
    ensures { Answers (outcome_says done_values) (retired_call_of state) (done_said state) result }
{
    let after = Cgb {
        vram_dma: dma_events::instruction_retired(state.vram_dma),
        ..state
    };
    reached(state, (), after)
}
