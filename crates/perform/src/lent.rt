// The calls that are lent memory: what each said, a bus call's pairs with their causes and bytes, the byte of an M-cycle call, and the state after. The slices
// come one by one, as in `perform`, and the two forms of the bus call differ in what they are told.
ghost use Rattle.std.specs.Prelude.{◌≡◌};
ghost use Rattle.perform.specs.Perform.{WritePerformed, BusPerformed, CyclePerformed, read_performed};
ghost use Rattle.perform.specs.Bussed.{bussed_of};
ghost use Rattle.engine.specs.Calls.{inside_bus};

use answers::BusOutcome;
use bus::arbitration::Arbitration;
use bus::commit::{BusInput, NO_PAIRS};
use bus::hold::HoldInput;
use console::Cgb;
use map_write::WriteInput;
use told::Performed;

#[tactic(auto, unfolding(crate::specs::Perform::write_performed))]
pub fn write(state: Cgb, wram: &mut [u8], address: u16, input: WriteInput) -> Performed
    ensures { WritePerformed state input address wram.old result wram.new }
{
    told::outcome(engine::write(state, wram, address, input))
}

#[tactic(auto, unfolding(crate::specs::Perform::read_performed))]
pub fn read(state: Cgb, wram: &[u8], address: u16) -> Performed
    ensures { result ≡ read_performed state wram.now address }
{
    told::quiet(told::of(engine::read(state, wram, address)), state)
}

// What a bus call of either form came to.
fn bussed(done: BusOutcome) -> Performed
    ensures { result ≡ bussed_of done }
{
    let pairs = done.pairs;
    let causes = told::of_causes(done.causes);
    let bytes = done.bytes;
    Performed {
        told: told::of(done.answer),
        pairs,
        causes,
        bytes,
        state: done.state,
    }
}

#[tactic(auto, unfolding(crate::specs::Perform::bus_performed))]
pub fn bus(
    state: Cgb,
    input: BusInput,
    cartridge: &[u8],
    wram: &[u8],
    vram: &mut [u8],
    oam: &mut [u8],
) -> Performed
    ensures { BusPerformed state input cartridge.now wram.now vram.old oam.old
        result vram.new oam.new }
{
    bussed(engine::vram_dma_commit_bytes(state, input, cartridge, wram, vram, oam))
}

#[tactic(auto, unfolding(crate::specs::Perform::bus_performed))]
pub fn bus_inside(
    state: Cgb,
    input: HoldInput,
    cartridge: &[u8],
    wram: &[u8],
    vram: &mut [u8],
    oam: &mut [u8],
) -> Performed
    ensures { BusPerformed state (inside_bus state input) cartridge.now wram.now vram.old oam.old
        result vram.new oam.new }
{
    bussed(engine::vram_dma_commit_bytes_inside(state, input, cartridge, wram, vram, oam))
}

#[tactic(auto, unfolding(crate::specs::Perform::cycle_performed))]
pub fn cycle(
    state: Cgb,
    arbitration: Arbitration,
    cartridge: &[u8],
    wram: &[u8],
    vram: &[u8],
    oam: &mut [u8],
) -> Performed
    ensures { CyclePerformed state arbitration cartridge.now wram.now vram.now oam.old
        result oam.new }
{
    let cycled = engine::object_dma_m_cycle(state, arbitration, cartridge, wram, vram, oam);
    Performed {
        told: told::of(cycled.answer),
        pairs: NO_PAIRS,
        causes: [0u8; 2],
        bytes: [cycled.byte, 0],
        state: cycled.state,
    }
}
