// The HBlank block: bytes 9 to 23.
ghost use Rattle.std.specs.Prelude.{◌≡◌};
ghost use Rattle.std.proofs.lemmas.List.Edits.{sets};
ghost use Rattle.codec.specs.Block.{block_bytes, block_of};

use crate::run::place;
use arithmetic::bytes::bytes_at;
use console::vram_dma::HblankBlock;
use countdown::Countdown;

#[tactic(auto, unfolding(crate::specs::Block::block_bytes))]
pub(crate) fn put_block(out: &mut [u8; 248], k: HblankBlock)
    ensures { out.new ≡ sets out.old 9 (block_bytes k) }
{
    place(out, 9, &[k.remaining]);
    place(out, 10, &k.start_edge.to_le_bytes());
    let rest = [
        k.taken as u8,
        k.setup_cells.0,
        k.ready_in.0,
        k.seize_falls,
        k.from_arm as u8,
        k.arm_ready_probation as u8,
    ];
    place(out, 18, &rest);
}

#[tactic(auto, unfolding(crate::specs::Block::block_of))]
pub(crate) fn block_of(b: &[u8; 248]) -> HblankBlock
    ensures { result ≡ block_of b.now }
{
    HblankBlock {
        remaining: b[9],
        start_edge: u64::from_le_bytes(bytes_at(b, 10)),
        taken: b[18] == 1,
        setup_cells: Countdown(b[19]),
        ready_in: Countdown(b[20]),
        seize_falls: b[21],
        from_arm: b[22] == 1,
        arm_ready_probation: b[23] == 1,
    }
}
