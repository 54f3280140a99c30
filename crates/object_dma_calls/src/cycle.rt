// The M-cycle call: at most one byte of object DMA.
ghost use Rattle.std.specs.Prelude.{◌≡◌, ◌<◌};
ghost use Rattle.object_dma.specs.ObjectDma.{after_byte};
ghost use Rattle.object_dma_calls.specs.Cycle.{refused_cycle, Took, AnswersCycle};

use answers::lent::all_lent;
use answers::{Cycle, Cycled};
use bus::arbitration::Arbitration;
use bus::commit::Banks;
use console::Cgb;
use console::object::ObjectDma;
use console::refusal::Refusal;

// What became of the next byte, and object DMA after it. The byte stands beside the answer, as in `Cycled`.
#[derive(Clone, Copy)]
pub struct ByteTaken {
    pub answer: Cycle,
    pub byte: u8,
    pub object: ObjectDma,
}

// The 160th byte ends the run; page and start edge stay.
fn count_byte(o: ObjectDma) -> ObjectDma
    requires { o.counted < 160 }
    ensures { result ≡ after_byte o }
{
    let counted = o.counted + 1;
    ObjectDma {
        running: counted < 160,
        counted,
        ..o
    }
}

// The slices come one by one: it writes OAM alone, where a bus call writes VRAM too, and C hands them so.
#[tactic(auto, unfolding(crate::specs::Cycle::cycle_answer_of, crate::specs::Cycle::after_cycle, crate::specs::Cycle::byte_moved, crate::specs::Cycle::oam_after_cycle))]
fn take_byte(
    object: ObjectDma,
    arbitration: Arbitration,
    banks: Banks,
    cartridge: &[u8],
    wram: &[u8],
    vram: &[u8],
    oam: &mut [u8],
) -> ByteTaken
    ensures { Took object arbitration banks cartridge.now wram.now vram.now oam.old
        result oam.new }
{
    if !object_dma::runs(object) {
        return ByteTaken {
            answer: Cycle::Nothing,
            byte: 0,
            object,
        };
    }
    let source = object_dma::source(object);
    match arbitration {
        Arbitration::Stall => ByteTaken {
            answer: Cycle::Nothing,
            byte: 0,
            object,
        },
        Arbitration::Contended => {
            ByteTaken {
                answer: Cycle::PassedOver(source),
                byte: 0,
                object: count_byte(object),
            }
        }
        Arbitration::Clear => {
            let byte = bus_memory::source::read_object_source(banks, cartridge, wram, vram, source);
            bus_memory::store::commit_oam(oam, object_dma::target(object), byte);
            ByteTaken {
                answer: Cycle::Moved(source),
                byte,
                object: count_byte(object),
            }
        }
    }
}

// Of this call's answer, as the bus call has one of its own: the two have other places beside the state.
fn refused(state: Cgb, refusal: Refusal) -> Cycled
    ensures { result ≡ refused_cycle refusal state }
{
    Cycled {
        answer: Err(refusal),
        byte: 0,
        state,
    }
}

pub fn object_dma_m_cycle(
    state: Cgb,
    arbitration: Arbitration,
    cartridge: &[u8],
    wram: &[u8],
    vram: &[u8],
    oam: &mut [u8],
) -> Cycled
    ensures { AnswersCycle state arbitration cartridge.now wram.now vram.now oam.old
        result oam.new }
{
    if let Err(refusal) = all_lent(state, cartridge, wram, vram, oam) {
        return refused(state, refusal);
    }
    let banks = Banks {
        svbk: state.svbk,
        vram: state.vram.selected,
    };
    let taken = take_byte(
        state.object_dma,
        arbitration,
        banks,
        cartridge,
        wram,
        vram,
        oam,
    );
    Cycled {
        answer: Ok(taken.answer),
        byte: taken.byte,
        state: Cgb {
            object_dma: taken.object,
            ..state
        },
    }
}
