// The state as 248 bytes at fixed offsets, and back (docs/STATE-LAYOUT.md). Every field is put and read at its own offset by hand: a
// derive knows nothing of the layout.
#![tactic(auto)]

mod arb;
mod block;
mod cursor;
mod oam;
mod object;
mod rest;
mod run;
mod widths;

ghost use Rattle.std.specs.Prelude.{◌≡◌};
ghost use Rattle.codec.specs.Codec.{encode_of, dma_of, state_of, decode_of};

use arb::{arb_of, put_arb};
use arithmetic::bytes::bytes_at;
use block::{block_of, put_block};
use console::vram_dma::VramDma;
use console::{Cgb, CgbVram};
use cursor::{cursor_of, put_cursor};
use oam::{oam_of, put_oam};
use object::{object_of, put_object};
use rest::{console_of, latency_of, put_bank, put_extra, put_registers};
use run::same;

#[tactic(auto, unfolding(crate::proofs::State::sized))]
pub fn encode(state: Cgb) -> [u8; 248]
    ensures { result ≡ encode_of state }
{
    let mut out = [0; 248];
    put_cursor(&mut out, state.vram_dma.cursor);
    put_block(&mut out, state.vram_dma.block);
    put_arb(&mut out, state.vram_dma.arb);
    put_oam(&mut out, state.vram_dma.oam);
    put_registers(&mut out, state);
    put_extra(&mut out, state.extra_oam);
    put_bank(&mut out, state.vram.selected, state.console_state);
    put_object(&mut out, state.object_dma);
    out
}

#[tactic(auto, unfolding(crate::specs::Codec::dma_of))]
fn dma_of(b: &[u8; 248]) -> VramDma
    ensures { result ≡ dma_of b.now }
{
    VramDma {
        cursor: cursor_of(b),
        block: block_of(b),
        arb: arb_of(b),
        oam: oam_of(b),
    }
}

// What any bytes read as, canonical or not.
#[tactic(auto, unfolding(crate::specs::Codec::state_of))]
pub fn state_of(bytes: &[u8; 248]) -> Cgb
    ensures { result ≡ state_of bytes.now }
{
    Cgb {
        svbk: bytes[41],
        key1_armed: bytes[42] == 1,
        double_speed: bytes[43] == 1,
        dmg_compat: bytes[44] == 1,
        vram_dma: dma_of(bytes),
        speed_switch_blackout: u32::from_le_bytes(bytes_at(bytes, 45)),
        speed_switch_wake_latency: latency_of(bytes),
        switch_relock_debit: bytes[51] == 1,
        ff72: bytes[52],
        ff73: bytes[53],
        ff74: bytes[54],
        ff75: bytes[55],
        extra_oam: bytes_at(bytes, 56),
        vram: CgbVram {
            selected: bytes[80],
        },
        console_state: console_of(bytes),
        object_dma: object_of(bytes),
    }
}

// The state that canonical bytes say: those that it is written as, and no other.
#[tactic(auto, unfolding(crate::specs::Codec::decode_of))]
pub fn decode(bytes: [u8; 248]) -> Option<Cgb>
    ensures { result ≡ decode_of bytes }
{
    let state = state_of(&bytes);
    same(encode(state), bytes).then_some(state)
}
