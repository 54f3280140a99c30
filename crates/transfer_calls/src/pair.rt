// The next pair and the escape drain (vram_dma.rs, `next_byte`; lib.rs, `vram_dma_drain_escape`).
ghost use Rattle.answers.specs.Answers.{Answers, outcome_says, pair_values};
ghost use Rattle.transfer_calls.specs.Pair.{next_pair_of, next_pair_said, escape_drain_of, escape_drain_said};

use answers::Outcome;
use answers::decided::reached;
use console::Cgb;
use transfer::pair::{BytePair, Cause};

#[tactic(auto, unfolding(crate::specs::Pair::next_pair_of, crate::specs::Pair::next_pair_said))]
pub fn next_byte(state: Cgb) -> Outcome<Option<(BytePair, Cause)>>
    ensures { Answers (outcome_says pair_values) (next_pair_of state) (next_pair_said state) result }
{
    let next = next_pair::next_byte(state.vram_dma);
    let after = Cgb {
        vram_dma: next.dma,
        ..state
    };
    reached(state, next.answer, after)
}

#[tactic(auto, unfolding(crate::specs::Pair::escape_drain_of, crate::specs::Pair::escape_drain_said))]
pub fn vram_dma_drain_escape(state: Cgb) -> Outcome<Option<(BytePair, Cause)>>
    ensures { Answers (outcome_says pair_values) (escape_drain_of state) (escape_drain_said state) result }
{
    let drained = next_pair::drain_escape(state.vram_dma);
    let after = Cgb {
        vram_dma: drained.dma,
        ..state
    };
    reached(state, drained.answer, after)
}
