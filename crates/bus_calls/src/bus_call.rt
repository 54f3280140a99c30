// The bus call (vram_dma.rs, `vram_dma_commit_bytes`): the bytes that the engine moves in an M-cycle.
ghost use Rattle.bus_calls.specs.BusCall.{refused_bus, AnswersBus};
ghost use Rattle.std.specs.Prelude.{◌≡◌};

use answers::lent::all_lent;
use answers::{BusOutcome, Moved};
use bus::commit::{Banks, BusInput, NO_PAIRS};
use console::Cgb;
use console::refusal::Refusal;
use transfer::pair::Cause;

// Of this call's answer, as the M-cycle call has one of its own: the two have other places beside the state.
fn refused(state: Cgb, refusal: Refusal) -> BusOutcome
    ensures { result ≡ refused_bus refusal state }
{
    BusOutcome {
        answer: Err(refusal),
        pairs: NO_PAIRS,
        causes: [Cause::GoingOn; 2],
        bytes: [0u8; 2],
        state,
    }
}

// The slices come one by one: each call borrows them in its own way, this one VRAM and OAM to write, and C hands them so.
pub fn vram_dma_commit_bytes(
    state: Cgb,
    input: BusInput,
    cartridge: &[u8],
    wram: &[u8],
    vram: &mut [u8],
    oam: &mut [u8],
) -> BusOutcome
    ensures { AnswersBus state input cartridge.now wram.now vram.old oam.old
        result vram.new oam.new }
{
    if let Err(refusal) = all_lent(state, cartridge, wram, vram, oam) {
        return refused(state, refusal);
    }
    let banks = Banks {
        svbk: state.svbk,
        vram: state.vram.selected,
    };
    let run = bus_commit::commit_bytes(state.vram_dma, banks, input, cartridge, wram, vram, oam);
    let pairs = run.pairs;
    let causes = run.causes;
    let bytes = run.bytes;
    BusOutcome {
        answer: Ok(Moved {
            count: run.count,
            setup_cell: run.setup_cell,
        }),
        pairs,
        causes,
        bytes,
        state: Cgb {
            vram_dma: run.dma,
            ..state
        },
    }
}
