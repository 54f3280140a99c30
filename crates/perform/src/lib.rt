// Every call of the engine through one function: what a board, a C program or a comparison with the
// original drives. Code and contracts are the engine's; here they are only gathered. The slices come one by one: each call borrows those
// that it looks at in its own way, and C hands them so.
#![tactic(auto)]

pub mod lent;

ghost use Rattle.perform.specs.Perform.{Performs};
ghost use Rattle.perform.specs.Record.{PerformsRecord};

use call::Call;
use console::Cgb;
use console::refusal::Refusal;
use told::Performed;

fn dispatched(
    state: Cgb,
    call: Call,
    cartridge: &[u8],
    wram: &mut [u8],
    vram: &mut [u8],
    oam: &mut [u8],
) -> Performed
    ensures { Performs state call cartridge.now wram.old vram.old oam.old
        result wram.new vram.new oam.new }
{
    match call {
        Call::Write { address, input } => lent::write(state, wram, address, input),
        Call::Read(address) => lent::read(state, wram, address),
        Call::Bus(input) => lent::bus(state, input, cartridge, wram, vram, oam),
        Call::BusInside(input) => lent::bus_inside(state, input, cartridge, wram, vram, oam),
        Call::ObjectDmaCycle(arbitration) => lent::cycle(
            state,
            arbitration,
            cartridge,
            wram,
            vram,
            oam,
        ),
        Call::Plain(plain) => plain::plain(state, plain),
    }
}

// The state anew once for all calls: a record of the replay takes a twenty-fifth fewer instructions.
pub fn perform(
    state: Cgb,
    call: Call,
    cartridge: &[u8],
    wram: &mut [u8],
    vram: &mut [u8],
    oam: &mut [u8],
) -> Performed
    ensures { Performs state call cartridge.now wram.old vram.old oam.old
        result wram.new vram.new oam.new }
{
    let done = dispatched(state, call, cartridge, wram, vram, oam);
    Performed {
        state: done.state.anew(),
        ..done
    }
}

// A record's call, or 6 where it is of no call.
pub fn perform_record(
    state: Cgb,
    coded: Option<Call>,
    cartridge: &[u8],
    wram: &mut [u8],
    vram: &mut [u8],
    oam: &mut [u8],
) -> Performed
    ensures { PerformsRecord state coded cartridge.now wram.old vram.old oam.old
        result wram.new vram.new oam.new }
{
    let Some(call) = coded else {
        return told::quiet(told::refused(u8::from(Refusal::Record)), state);
    };
    perform(state, call, cartridge, wram, vram, oam)
}
