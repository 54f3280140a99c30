// Every query through one function. Written by tools/calls from calls.txt.
#![tactic(auto)]

ghost use Rattle.std.specs.Prelude.{◌≡◌};
ghost use Rattle.told.specs.Told.{told_of};
ghost use Rattle.ask.specs.Ask.{asked_of};

use call::query::Query;
use console::Cgb;
use told::Told;

#[tactic(auto, unfolding(crate::specs::Ask::asked_of))]
pub fn ask(state: Cgb, query: Query) -> Told
    ensures { result ≡ told_of (asked_of state query) }
{
    match query {
        Query::Tally => told::of(engine::tally(state)),
        Query::Status => told::of(engine::vram_dma_status(state)),
        Query::Claim => told::of(engine::vram_dma_claim(state)),
        Query::ParkWaits => told::of(engine::vram_dma_park_waits_for_fetch(state)),
        Query::RequestStanding => told::of(engine::vram_dma_request_standing(state)),
        Query::HoldsCpu => told::of(engine::vram_dma_holds_cpu(state)),
        Query::SeizesBus => told::of(engine::vram_dma_seizes_bus(state)),
        Query::SwitchInProgress => told::of(engine::speed_switch_in_progress(state)),
        Query::DividerActive => told::of(engine::speed_switch_divider_active(state)),
        Query::DoubleSpeed => told::of(engine::double_speed(state)),
        Query::CpuStepsPerDot => told::of(engine::cpu_steps_per_dot(state)),
        Query::WramBank => told::of(engine::wram_bank(state)),
        Query::SvbkRegister => told::of(engine::svbk_register(state)),
        Query::ObjectDma => told::of(engine::object_dma(state)),
    }
}
