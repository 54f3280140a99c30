// Register and WRAM reads and writes (lib.rs, `map_read`, `map_write`). The slice is work RAM, and
// its length is tested for every address.
#![tactic(auto)]

ghost use Rattle.std.specs.Prelude.{◌≡◌, length};
ghost use Rattle.console.specs.Refusals.{answered};
ghost use Rattle.map_write.specs.Write.{map_write_of};
ghost use Rattle.register_calls.specs.Access.{lent_refusal, read_of, read_said, write_refusal, write_wram, AnswersWrite};
ghost use Rattle.answers.specs.Answers.{Answers, says, byte_values};

use answers::Outcome;
use console::Cgb;
use console::refusal::Refusal;
use map_write::WriteInput;

// The tests in front of the address: 7, then 2 of work RAM. Beside `all_lent` of answers: these calls are lent one slice of the four.
#[tactic(auto, unfolding(console::specs::Reached::state_refusal))]
fn lent(state: Cgb, wram: &[u8]) -> Result<(), Refusal>
    ensures { result ≡ answered (lent_refusal state (length wram.now)) tt }
{
    state.reached()?;
    if wram.len() != memory::WRAM {
        return Err(Refusal::Length);
    }
    Ok(())
}

#[tactic(auto, unfolding(crate::specs::Access::read_of, crate::specs::Access::read_said, crate::specs::Access::access_refusal, map_read::specs::Read::map_read_of))]
pub fn read(state: Cgb, wram: &[u8], address: u16) -> Result<u8, Refusal>
    ensures { Answers (says byte_values) (read_of state wram.now address) (read_said state wram.now address) result }
{
    lent(state, wram)?;
    map_read::map_read_byte(state, wram, address).ok_or(Refusal::Address)
}

// The state after a write, where it is not declined.
#[tactic(auto, using(crate::proofs::Refusals::page_mapped, map_write::proofs::Mapped::write_mapped, crate::proofs::Refusals::wram_left), unfolding(crate::specs::Access::write_wram, crate::specs::Access::access_refusal))]
fn stored(state: Cgb, wram: &mut [u8], address: u16, input: WriteInput) -> Result<Cgb, Refusal>
    ensures state { result ≡ answered (write_refusal state input.value (length wram.old) address) (map_write_of state input address).state }
    ensures memory { wram.new ≡ write_wram state input address wram.old }
{
    lent(state, wram)?;
    // FF46 is in the map: 4 cannot come there.
    if (address == 0xFF46) & (input.value > 0xDF) {
        return Err(Refusal::Page);
    }
    map_write::map_write_byte(state, wram, address, input).ok_or(Refusal::Address)
}

#[tactic(auto, unfolding(crate::specs::Access::write_of, crate::specs::Access::write_said))]
pub fn write(state: Cgb, wram: &mut [u8], address: u16, input: WriteInput) -> Outcome<()>
    ensures { AnswersWrite state input address wram.old result wram.new }
{
    // By cases: through `decided` the search does not find that the slice is kept.
    match stored(state, wram, address, input) {
        Ok(after) => Outcome {
            answer: Ok(()),
            state: after,
        },
        Err(refusal) => Outcome {
            answer: Err(refusal),
            state,
        },
    }
}
