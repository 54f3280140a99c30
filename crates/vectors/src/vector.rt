// One vector: its call is performed by the exported entry, and every byte of the answer, of the state and of
// lent memory is compared with what the original left. differential/oracle/src/vector.rs says each place.
ghost use Rattle.std.specs.Prelude.{◌<◌, ◌≤◌, ◌^◌};

use crate::lent::{Lent, Slice};
use std::io::{self, Read};

// A byte that a call changed: its slice, its index and its value.
#[derive(Clone, Copy)]
pub struct Change {
    pub slice: Slice,
    pub index: usize,
    pub value: u8,
}

#[derive(Clone, Copy)]
pub struct Vector {
    call: [u8; 16],
    lengths: [u32; 4],
    before: [u8; 248],
    answer: [u8; 24],
    after: [u8; 248],
    pub changes: [Option<Change>; 4],
}

fn bytes<const N: usize>(input: &mut impl Read) -> io::Result<[u8; N]>
    requires { N < 2 ^ 63 }
{
    let mut bytes = [0; N];
    input.read_exact(&mut bytes)?;
    Ok(bytes)
}

fn length(input: &mut impl Read) -> io::Result<u32> {
    Ok(u32::from_le_bytes(bytes(input)?))
}

impl Change {
    // None where a vector names fewer bytes than it has places for.
    fn read(input: &mut impl Read) -> io::Result<Option<Self>> {
        let [number, low, high, value] = bytes::<4>(input)?;
        let index = usize::from(u16::from_le_bytes([low, high]));
        Ok(Slice::of_change(number).map(|slice| Change {
            slice,
            index,
            value,
        }))
    }
}

// The length of a slice that a call is given, of a memory that has no more than `limit`.
fn up_to(limit: usize, length: u32) -> usize
    ensures { result ≤ limit }
{
    limit.min(length as usize)
}

impl Vector {
    // In one read, since standard input has no buffer: place by place it takes twelve, and longer than all else.
    pub fn read(input: &mut impl Read) -> io::Result<Self> {
        let vector: [u8; 568] = bytes(input)?;
        Self::of(&mut &vector[..])
    }

    fn of(input: &mut impl Read) -> io::Result<Self> {
        Ok(Vector {
            call: bytes(input)?,
            lengths: [
                length(input)?,
                length(input)?,
                length(input)?,
                length(input)?,
            ],
            before: bytes(input)?,
            answer: bytes(input)?,
            after: bytes(input)?,
            changes: [
                Change::read(input)?,
                Change::read(input)?,
                Change::read(input)?,
                Change::read(input)?,
            ],
        })
    }

    pub fn kind(&self) -> u8 {
        self.call[0]
    }

    pub fn seed(&self) -> u8 {
        self.call[1]
    }

    // Whether the call is lent memory: a write, a read, a bus call, object DMA's M-cycle. For others it is neither filled nor looked at.
    // By the kind's number, since an M-cycle's record that is no call is to leave memory too.
    fn is_lent(&self) -> bool {
        matches!(self.kind(), 1 | 8 | 9 | 27 | 29)
    }

    // Whether the entry's answer is the original's, with the result in front of it; it leaves the state.
    fn answered(&self, state: &mut [u8; 248], lent: &mut Lent) -> bool {
        let [c, w, v, o] = self.lengths;
        let wram = &mut lent.wram[..];
        let vram = &mut lent.vram[..];
        let oam = &mut lent.oam[..];
        // What stood in the answer must not show in it.
        let mut answer = [0xA5; 24];
        let result = c_api::cgb_perform(
            state,
            &self.call,
            &mut answer,
            &lent.cartridge[..up_to(40961, c)],
            &mut wram[..up_to(32769, w)],
            &mut vram[..up_to(16385, v)],
            &mut oam[..up_to(161, o)],
        );
        (result == answer[0]) & (answer == self.answer)
    }

    // Power-on, with or without compat: the state before is not looked at.
    fn powered_on(&self) -> bool {
        let mut state = [0; 248];
        c_api::cgb_power_on(&mut state, self.call[4]);
        state == self.after
    }

    fn performed(&self, lent: &mut Lent) -> bool {
        let mut state = self.before;
        self.answered(&mut state, lent) & (state == self.after)
    }

    // Kind 0 is power-on, which is no call.
    pub fn agrees(&self, lent: &mut Lent) -> bool {
        if self.kind() == 0 {
            return self.powered_on();
        }
        if !self.is_lent() {
            return self.performed(lent);
        }
        lent.fill(self.seed());
        self.performed(lent) & lent.as_named(self)
    }
}
