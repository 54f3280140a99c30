// What is asked of object DMA: for the caller who tells a fall whether OAM DMA owns a bus.
ghost use Rattle.answers.specs.Answers.{object_dma_values};
ghost use Rattle.answers.specs.Queries.{Asked};
ghost use Rattle.object_dma_calls.specs.Query.{object_dma_told};

use answers::ObjectDmaTally;
use answers::query::asked;
use console::Cgb;
use console::refusal::Refusal;

pub fn object_dma(state: Cgb) -> Result<ObjectDmaTally, Refusal>
    ensures { Asked object_dma_values state (object_dma_told state) result }
{
    let o = state.object_dma;
    let tally = ObjectDmaTally {
        runs: object_dma::runs(o),
        counted: o.counted,
        page: o.page,
    };
    asked(state, tally)
}
