// Object DMA (document 02, A1): whether it runs, its start by a write to FF46, where its next byte comes from and where it goes.
#![tactic(auto)]

ghost use Rattle.std.specs.Prelude.{◌≡◌};
ghost use Rattle.object_dma.specs.ObjectDma.{runs, started, source_of, target_of};

use console::object::ObjectDma;

pub fn runs(o: ObjectDma) -> bool
    ensures { result ≡ runs o }
{
    o.running & (o.counted < 160)
}

// It starts over where it runs already.
pub fn start(page: u8, start_edge: u64) -> ObjectDma
    ensures { result ≡ started page start_edge }
{
    ObjectDma {
        running: true,
        page,
        counted: 0,
        start_edge,
    }
}

// The address of the next byte.
pub fn source(o: ObjectDma) -> u16
    ensures { result ≡ source_of o }
{
    u16::from(o.page) * 256 + u16::from(o.counted)
}

// Where it goes in OAM.
pub fn target(o: ObjectDma) -> u16
    ensures { result ≡ target_of o }
{
    0xFE00 + u16::from(o.counted)
}
