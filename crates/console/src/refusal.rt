// Declined calls: the papers' numbers, and the test behind 7.
ghost use Rattle.std.specs.Prelude.{◌≡◌};
ghost use Rattle.console.specs.Reached.{unreached, state_refusal};
ghost use Rattle.console.specs.Refusals.{refusal_number, answered};

use crate::Cgb;
use crate::vram_dma::TransferMode;
use std::error::Error;
use std::fmt;

// The reasons to decline a call, each with its number.
#[derive(Clone, Copy, Debug, PartialEq, Eq)]
pub enum Refusal {
    // A mode above 3.
    Mode = 1,
    // A lent slice of another length.
    Length = 2,
    // A dot phase above 4.
    Phase = 3,
    // An address that is not in the call's map.
    Address = 4,
    // A switch under hold.
    Held = 5,
    // A record of other kind, or short.
    Record = 6,
    // A state that no run leaves.
    State = 7,
    // A blackout is running.
    Blackout = 11,
    // KEY1 is not armed.
    Unarmed = 12,
    // Downward with a ready block.
    Deferred = 13,
    // A commit not already counted would raise granted from 255.
    Granted = 14,
    // Document 02, A1: a page of object DMA above DF.
    Page = 21,
}

// Its number in the papers.
impl From<Refusal> for u8 {
    ghost from_gives = { λ refusal number. number ≡ refusal_number refusal };

    fn from(refusal: Refusal) -> u8 {
        refusal as u8
    }
}

// For a caller that shows a person why: the programs here print the number alone, as the papers ask.
impl fmt::Display for Refusal {
    fn fmt<W: fmt::Write>(&self, f: &mut fmt::Formatter<W>) -> fmt::Result {
        match self {
            Refusal::Mode => write!(f, "1: a mode above 3"),
            Refusal::Length => write!(f, "2: a slice of another length"),
            Refusal::Phase => write!(f, "3: a dot phase above 4"),
            Refusal::Address => write!(f, "4: an address that is not in the map"),
            Refusal::Held => write!(f, "5: a switch under hold"),
            Refusal::Record => write!(f, "6: a record of another kind, or a short one"),
            Refusal::State => write!(f, "7: a state that no run leaves"),
            Refusal::Blackout => write!(f, "11: a blackout is running"),
            Refusal::Unarmed => write!(f, "12: KEY1 is not armed"),
            Refusal::Deferred => write!(f, "13: downward with a ready block"),
            Refusal::Granted => write!(f, "14: a commit that granted has no room for"),
            Refusal::Page => write!(f, "21: a page of object DMA above DF"),
        }
    }
}

impl Error for Refusal {}

impl Cgb {
    // Refusal 7: one of its eight tests holds. In the papers' order, but for the last of document 01: the four in front of it are of
    // fields that a fall leaves, and where they stand together falls in a row ask them once.
    pub fn unreached(self) -> bool
        ensures { result ≡ unreached self }
    {
        let c = self.vram_dma.cursor;
        let idle = c.mode == TransferMode::Idle;
        (c.quota > 2)
            | (self.vram_dma.block.remaining > 16)
            | (c.remaining > 2048)
            | (self.svbk > 7)
            | (self.vram.selected > 1)
            | (self.object_dma.counted > 160)
            | (self.object_dma.page > 0xDF)
            | ((c.remaining == 0) & !idle)
    }
    // The first test of every call.
    #[tactic(auto, unfolding(crate::specs::Reached::state_refusal))]
    pub fn reached(self) -> Result<(), Refusal>
        ensures { result ≡ answered (state_refusal self) tt }
    {
        if self.unreached() {
            return Err(Refusal::State);
        }
        Ok(())
    }
}
