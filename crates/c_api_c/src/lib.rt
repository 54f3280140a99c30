// The library for C: exports each function of c_api under its own name and with its own clauses, since a crate is a library or
// a static library, and a library's own functions are not exported. include/cgb_vram_dma.h has every layout.
#![tactic(auto)]

ghost use Rattle.std.specs.Prelude.{◌≡◌, not, eqb};
ghost use Rattle.estimate.specs.Estimate.{estimated_bytes, estimated_cycles};
ghost use Rattle.c_api.specs.Entry.{Entered, powered_on};

// The state at power-on; compat if not 0.
#[unsafe(no_mangle)]
pub extern "C" fn cgb_power_on(state: &mut [u8; 248], compat: u8)
    ensures { state.new ≡ powered_on compat }
{
    c_api::cgb_power_on(state, compat);
}

// One call. The result is the refusal, or 0, and stands in front of the answer. State bytes that no state has
// get 7, then a record of no call gets 6. A refused call's answer is the number and zeros; the rest is as given.
#[unsafe(no_mangle)]
pub extern "C" fn cgb_perform(
    state: &mut [u8; 248],
    call: &[u8; 16],
    answer: &mut [u8; 24],
    cartridge: &[u8],
    wram: &mut [u8],
    vram: &mut [u8],
    oam: &mut [u8],
) -> u8
    ensures { Entered state.old call.now cartridge.now
        wram.old vram.old oam.old
        result state.new answer.new wram.new vram.new oam.new }
{
    c_api::cgb_perform(state, call, answer, cartridge, wram, vram, oam)
}

// The bytes of a General transfer, from the value for FF55 and the destination register.
#[unsafe(no_mangle)]
pub extern "C" fn cgb_estimate_bytes(value: u8, destination: u16) -> u16
    ensures { result ≡ estimated_bytes value destination }
{
    c_api::cgb_estimate_bytes(value, destination)
}

// The M-cycles that they take; at double speed if not 0.
#[unsafe(no_mangle)]
pub extern "C" fn cgb_estimate(value: u8, destination: u16, double_speed: u8) -> u16
    ensures { result ≡ estimated_cycles value destination (not (eqb double_speed 0)) }
{
    c_api::cgb_estimate(value, destination, double_speed)
}
