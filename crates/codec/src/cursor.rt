// The transfer cursor: bytes 0 to 8.
ghost use Rattle.std.specs.Prelude.{◌≡◌};
ghost use Rattle.std.proofs.lemmas.List.Edits.{sets};
ghost use Rattle.codec.specs.Cursor.{mode_of, cursor_bytes, cursor_of};

use crate::run::place;
use arithmetic::bytes::bytes_at;
use console::vram_dma::{TransferCursor, TransferMode};

// The mode whose number is `x`; what is no mode's number reads as HBlank, and is then not canonical. So every byte reads as a mode: no
// TryFrom, which would refuse some, and the type has no From, since that reading is this layout's alone.
fn mode_of(x: u8) -> TransferMode
    ensures { result ≡ mode_of x }
{
    match x {
        0 => TransferMode::Idle,
        1 => TransferMode::General,
        _ => TransferMode::HBlank,
    }
}

#[tactic(auto, unfolding(crate::specs::Cursor::cursor_bytes))]
pub(crate) fn put_cursor(out: &mut [u8; 248], c: TransferCursor)
    ensures { out.new ≡ sets out.old 0 (cursor_bytes c) }
{
    place(out, 0, &c.source.to_le_bytes());
    place(out, 2, &c.dest.to_le_bytes());
    place(out, 4, &[c.mode as u8]);
    place(out, 5, &c.remaining.to_le_bytes());
    place(out, 7, &[c.quota, c.escape_byte as u8]);
}

#[tactic(auto, unfolding(crate::specs::Cursor::cursor_of))]
pub(crate) fn cursor_of(b: &[u8; 248]) -> TransferCursor
    ensures { result ≡ cursor_of b.now }
{
    TransferCursor {
        source: u16::from_le_bytes(bytes_at(b, 0)),
        dest: u16::from_le_bytes(bytes_at(b, 2)),
        mode: mode_of(b[4]),
        remaining: u16::from_le_bytes(bytes_at(b, 5)),
        quota: b[7],
        escape_byte: b[8] == 1,
    }
}
