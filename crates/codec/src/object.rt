// Object DMA: bytes 91 to 101.
ghost use Rattle.std.specs.Prelude.{◌≡◌};
ghost use Rattle.std.proofs.lemmas.List.Edits.{sets};
ghost use Rattle.codec.specs.Object.{object_bytes, object_of};

use crate::run::place;
use arithmetic::bytes::bytes_at;
use console::object::ObjectDma;

#[tactic(auto, unfolding(crate::specs::Object::object_bytes))]
pub(crate) fn put_object(out: &mut [u8; 248], o: ObjectDma)
    ensures { out.new ≡ sets out.old 91 (object_bytes o) }
{
    place(out, 91, &[o.running as u8, o.page, o.counted]);
    place(out, 94, &o.start_edge.to_le_bytes());
}

#[tactic(auto, unfolding(crate::specs::Object::object_of))]
pub(crate) fn object_of(b: &[u8; 248]) -> ObjectDma
    ensures { result ≡ object_of b.now }
{
    ObjectDma {
        running: b[91] == 1,
        page: b[92],
        counted: b[93],
        start_edge: u64::from_le_bytes(bytes_at(b, 94)),
    }
}
