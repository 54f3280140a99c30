// The OAM contention: bytes 39 and 40.
ghost use Rattle.std.specs.Prelude.{◌≡◌};
ghost use Rattle.std.proofs.lemmas.List.Edits.{sets};
ghost use Rattle.codec.specs.Oam.{oam_bytes, oam_of};

use crate::run::place;
use console::vram_dma::OamContention;

#[tactic(auto, unfolding(crate::specs::Oam::oam_bytes))]
pub(crate) fn put_oam(out: &mut [u8; 248], o: OamContention)
    ensures { out.new ≡ sets out.old 39 (oam_bytes o) }
{
    place(out, 39, &[o.was_transferring as u8, o.contended as u8]);
}

#[tactic(auto, unfolding(crate::specs::Oam::oam_of))]
pub(crate) fn oam_of(b: &[u8; 248]) -> OamContention
    ensures { result ≡ oam_of b.now }
{
    OamContention {
        was_transferring: b[39] == 1,
        contended: b[40] == 1,
    }
}
