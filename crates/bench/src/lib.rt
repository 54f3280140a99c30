// What the measurements run (bench/): many calls on one state that is read once from its bytes and written back once, so
// that the calls themselves are timed and not the codec.
#![tactic(auto)]

ghost use Rattle.bench.specs.Falls.{step_fall, step_bus, Held, Benched};
ghost use Rattle.std.specs.Prelude.{◌≡◌};

use engine::{BusInput, Cgb, FallInput};

// A step's byte: mode in bits 0 and 1, halted, IRQ latched, stopped, a bus owned by OAM DMA. One byte a step, as C hands it, and by
// quotients, as record reads its flags.
fn fall_input(step: u8, edge: u64) -> FallInput
    ensures { result ≡ step_fall step edge }
{
    FallInput {
        mode: step % 4,
        halted: step / 4 % 2 == 1,
        irq_latched: step / 8 % 2 == 1,
        stopped: step / 16 % 2 == 1,
        master_edge: edge,
        oam_owns_bus: step / 32 % 2 == 1,
    }
}

fn bus_input() -> BusInput
    ensures { result ≡ step_bus }
{
    BusInput {
        hold: true,
        suspended: false,
        oam_start_edge: 0,
    }
}

// A bus call that holds the bus. The slices come one by one, as C hands them.
fn bus(state: Cgb, cartridge: &[u8], wram: &[u8], vram: &mut [u8], oam: &mut [u8]) -> Cgb
    ensures { Held state cartridge.now wram.now vram.old oam.old
        result vram.new oam.new }
{
    engine::vram_dma_commit_bytes(state, bus_input(), cartridge, wram, vram, oam).state
}

// A fall for each byte, its edge the byte's place; where bit 6 is set a bus call follows.
#[unsafe(no_mangle)]
pub extern "C" fn bench_falls(
    bytes: &mut [u8; 248],
    steps: &[u8],
    cartridge: &[u8],
    wram: &[u8],
    vram: &mut [u8],
    oam: &mut [u8],
)
    ensures { Benched bytes.old steps.now cartridge.now wram.now
        vram.old oam.old bytes.new vram.new oam.new }
{
    let mut state = codec::state_of(bytes);
    for (i, step) in steps.iter().enumerate() {
        state = engine::vram_dma_fall_edge(state, fall_input(*step, i as u64)).state;
        if step / 64 % 2 == 1 {
            state = bus(state, cartridge, wram, vram, oam);
        }
    }
    *bytes = codec::encode(state);
}
