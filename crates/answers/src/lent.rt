// What declines a call that is lent all memory, in front of its own work.
ghost use Rattle.std.specs.Prelude.{◌≡◌, [], ◌∷◌, length};
ghost use Rattle.console.specs.Reached.{unreached};
ghost use Rattle.console.specs.Refusals.{◌⇒◌, first_of, answered};
ghost use Rattle.console.specs.declared.refusal.Refusal.TheVariants.{State, Length};
ghost use Rattle.memory.specs.Lengths.{wrong_lengths};

use console::Cgb;
use console::refusal::Refusal;

// 7, then 2 of all four slices. They come one by one, as the calls have them: a call borrows them in its own way.
#[tactic(auto, unfolding(console::specs::Reached::state_refusal))]
pub fn all_lent(
    state: Cgb,
    cartridge: &[u8],
    wram: &[u8],
    vram: &[u8],
    oam: &[u8],
) -> Result<(), Refusal>
    ensures { result ≡ answered (first_of ((unreached state ⇒ State)
        ∷ (wrong_lengths (length cartridge.now) (length wram.now) (length vram.now) (length oam.now) ⇒ Length) ∷ [])) tt }
{
    state.reached()?;
    if memory::wrong_lengths(cartridge.len(), wram.len(), vram.len(), oam.len()) {
        return Err(Refusal::Length);
    }
    Ok(())
}
