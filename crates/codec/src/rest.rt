// What is left of the console: bytes 41 to 90.
ghost use Rattle.std.specs.Prelude.{◌≡◌, length};
ghost use Rattle.std.proofs.lemmas.List.Edits.{sets};
ghost use Rattle.arithmetic.specs.Number.{byte_at};
ghost use Rattle.codec.specs.Rest.{latency_of, register_bytes, bank_bytes, console_of};

use crate::run::place;
use arithmetic::bytes::bytes_at;
use console::{Cgb, CgbConsoleState, VramDmaClaim};

// SVBK, KEY1, the speed switch and FF72 to FF75: bytes 41 to 55.
#[tactic(auto, unfolding(crate::specs::Rest::register_bytes))]
pub(crate) fn put_registers(out: &mut [u8; 248], s: Cgb)
    ensures { out.new ≡ sets out.old 41 (register_bytes s) }
{
    let speed = [
        s.svbk,
        s.key1_armed as u8,
        s.double_speed as u8,
        s.dmg_compat as u8,
    ];
    place(out, 41, &speed);
    place(out, 45, &s.speed_switch_blackout.to_le_bytes());
    let latency = s.speed_switch_wake_latency;
    let rest = [
        latency.is_some() as u8,
        latency.unwrap_or(0),
        s.switch_relock_debit as u8,
        s.ff72,
        s.ff73,
        s.ff74,
        s.ff75,
    ];
    place(out, 49, &rest);
}

// The wake latency: bytes 49 and 50. Any two bytes read as one, a flag above 1 as a 1, so there is no TryFrom.
pub(crate) fn latency_of(b: &[u8; 248]) -> Option<u8>
    ensures { result ≡ latency_of (byte_at b.now 49) (byte_at b.now 50) }
{
    (b[49] != 0).then_some(b[50])
}

// The extra OAM: bytes 56 to 79.
pub(crate) fn put_extra(out: &mut [u8; 248], extra: [u8; 24])
    ensures { (out.new ≡ sets out.old 56 extra) × (length extra ≡ 24) }
{
    place(out, 56, &extra);
}

// VRAM's bank, the blackout's anchor and the claim: bytes 80 to 90.
#[tactic(auto, unfolding(crate::specs::Rest::bank_bytes))]
pub(crate) fn put_bank(out: &mut [u8; 248], selected: u8, k: CgbConsoleState)
    ensures { out.new ≡ sets out.old 80 (bank_bytes selected k) }
{
    place(out, 80, &[selected]);
    place(out, 81, &k.blackout_anchor.to_le_bytes());
    let claim = [
        k.vram_dma_claim.committed as u8,
        k.vram_dma_claim.standing as u8,
    ];
    place(out, 89, &claim);
}

#[tactic(auto, unfolding(crate::specs::Rest::console_of))]
pub(crate) fn console_of(b: &[u8; 248]) -> CgbConsoleState
    ensures { result ≡ console_of b.now }
{
    CgbConsoleState {
        blackout_anchor: u64::from_le_bytes(bytes_at(b, 81)),
        vram_dma_claim: VramDmaClaim {
            committed: b[89] == 1,
            standing: b[90] == 1,
        },
    }
}
