// The measured loop for C: exports the function of bench under its own name and with its own clauses, since a crate is a library or a
// static library, and a library's own functions are not exported.
#![tactic(auto)]

ghost use Rattle.bench.specs.Falls.{Benched};

// A fall for each byte, its edge the byte's place; where bit 6 is set a bus call follows.
#[unsafe(no_mangle)]
pub extern "C" fn bench_falls(
    bytes: &mut [u8; 248],
    steps: &[u8],
    cartridge: &[u8],
    wram: &[u8],
    vram: &mut [u8],
    oam: &mut [u8],
)
    ensures { Benched bytes.old steps.now cartridge.now wram.now
        vram.old oam.old bytes.new vram.new oam.new }
{
    bench::bench_falls(bytes, steps, cartridge, wram, vram, oam);
}
