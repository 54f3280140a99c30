// What is asked of the engine and changes nothing (lib.rs, the queries of `Cgb` and `Model`; the tally is document 01's own).
// Each tests 7.
#![tactic(auto)]

ghost use Rattle.answers.specs.Answers.{flag_values, tally_values, status_values, claim_values};
ghost use Rattle.answers.specs.Queries.{Asked};
ghost use Rattle.engine_queries.specs.Queries.{tallied, engine_status, last_claim, park_waits, request_stands, cpu_held, bus_seized};

use answers::Tally;
use answers::query::asked;
use console::refusal::Refusal;
use console::{Cgb, VramDmaClaim};
use transfer::VramDmaStatus;

pub fn tally(state: Cgb) -> Result<Tally, Refusal>
    ensures { Asked tally_values state (tallied state) result }
{
    let c = state.vram_dma.cursor;
    let tally = Tally {
        source: c.source,
        dest: c.dest,
        remaining: c.remaining,
        escape_byte: c.escape_byte,
    };
    asked(state, tally)
}

pub fn vram_dma_status(state: Cgb) -> Result<VramDmaStatus, Refusal>
    ensures { Asked status_values state (engine_status state) result }
{
    asked(state, dma_status::status(state.vram_dma))
}

// The claim of the last commit.

pub fn vram_dma_claim(state: Cgb) -> Result<VramDmaClaim, Refusal>
    ensures { Asked claim_values state (last_claim state) result }
{
    asked(state, state.console_state.vram_dma_claim)
}

// The block waits for the instruction in flight to retire.

pub fn vram_dma_park_waits_for_fetch(state: Cgb) -> Result<bool, Refusal>
    ensures { Asked flag_values state (park_waits state) result }
{
    asked(state, state.vram_dma.arb.park_waits_for_fetch)
}

pub fn vram_dma_request_standing(state: Cgb) -> Result<bool, Refusal>
    ensures { Asked flag_values state (request_stands state) result }
{
    asked(state, dma_status::request_standing(state.vram_dma))
}

pub fn vram_dma_holds_cpu(state: Cgb) -> Result<bool, Refusal>
    ensures { Asked flag_values state (cpu_held state) result }
{
    asked(state, dma_status::holds_cpu(state.vram_dma))
}

pub fn vram_dma_seizes_bus(state: Cgb) -> Result<bool, Refusal>
    ensures { Asked flag_values state (bus_seized state) result }
{
    asked(state, dma_status::seizes_bus(state.vram_dma))
}
