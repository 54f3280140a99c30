// The model for programs in other languages: the state as its 248 bytes, a call as a record of 16, an
// answer as a record of 24, slices as pointer and length (include/cgb_vram_dma.h has every layout); and the
// estimate of a General transfer, which takes no state.
#![tactic(auto)]

ghost use Rattle.std.specs.Prelude.{◌≡◌, not, eqb};
ghost use Rattle.estimate.specs.Estimate.{estimated_bytes, estimated_cycles};
ghost use Rattle.c_api.specs.Entry.{Entered, powered_on};

use console::refusal::Refusal;
use record::answer;

// The state at power-on; compat if not 0.
#[unsafe(no_mangle)]
#[tactic(auto, unfolding(crate::specs::Entry::powered_on))]
pub extern "C" fn cgb_power_on(state: &mut [u8; 248], compat: u8)
    ensures { state.new ≡ powered_on compat }
{
    *state = codec::encode(engine::power_on(compat != 0));
}

// One call. The result is the refusal, or 0, and stands in front of the answer. State bytes that no state has
// get 7, then a record of no call gets 6. A refused call's answer is the number and zeros; the rest is as given.
#[unsafe(no_mangle)]
pub extern "C" fn cgb_perform(
    state: &mut [u8; 248],
    call: &[u8; 16],
    answer: &mut [u8; 24],
    cartridge: &[u8],
    wram: &mut [u8],
    vram: &mut [u8],
    oam: &mut [u8],
) -> u8
    ensures { Entered state.old call.now cartridge.now
        wram.old vram.old oam.old
        result state.new answer.new wram.new vram.new oam.new }
{
    let Some(before) = codec::decode(*state) else {
        let number = u8::from(Refusal::State);
        *answer = answer::refused(number);
        return number;
    };
    // anew, as it comes out of an Option: with it a call takes a twentieth fewer instructions
    let done = perform::perform_record(
        before.anew(),
        record::decode(*call),
        cartridge,
        wram,
        vram,
        oam,
    );
    *answer = answer::encode(done);
    *state = codec::encode(done.state);
    done.told.refusal
}

// The bytes of a General transfer, from the value for FF55 and the destination register.
#[unsafe(no_mangle)]
#[tactic(auto, unfolding(estimate::specs::Estimate::transfer_time_of))]
pub extern "C" fn cgb_estimate_bytes(value: u8, destination: u16) -> u16
    ensures { result ≡ estimated_bytes value destination }
{
    estimate::transfer_time(value, destination, false).bytes
}

// The M-cycles that they take; at double speed if not 0.
#[unsafe(no_mangle)]
#[tactic(auto, unfolding(estimate::specs::Estimate::transfer_time_of))]
pub extern "C" fn cgb_estimate(value: u8, destination: u16, double_speed: u8) -> u16
    ensures { result ≡ estimated_cycles value destination (not (eqb double_speed 0)) }
{
    estimate::transfer_time(value, destination, double_speed != 0).m_cycles
}
