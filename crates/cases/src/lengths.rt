// Bus calls with a slice one short or one long: 2, and nothing changes. The cartridge holds 40h, so that
// a byte moved all the same would show.
ghost use Rattle.std.specs.Prelude.{◌<◌, ◌^◌};

use crate::case::Case;
use crate::{lent, say};
use engine::BusInput;
use memory::{CARTRIDGE, OAM, VRAM, WRAM};
use std::rt::Stdout;

// A call with slices of these lengths.
fn of<const C: usize, const W: usize, const V: usize, const O: usize>(case: Case, label: &str)
    requires sources { (C < 2 ^ 63) × (W < 2 ^ 63) }
    requires targets { (V < 2 ^ 63) × (O < 2 ^ 63) }
{
    let cartridge = [0x40; C];
    let wram = [0; W];
    let mut vram = [0; V];
    let mut oam = [0; O];
    let input = BusInput {
        hold: true,
        suspended: false,
        oam_start_edge: 0,
    };
    let bussed = engine::vram_dma_commit_bytes(
        case.state, input, &cartridge, &wram, &mut vram, &mut oam,
    );
    case.answered(label, bussed.answer);
    case.compare(bussed.state);
    lent::stored(case.out, &vram, &oam);
}

// With two pairs to move and a deposit due, as the last call shows.
pub fn each(out: Stdout) {
    say::line(out, "lengths of a bus call's slices");
    let general = Case::power_on(out, false).set(0xFF55, 0x00);
    let case = general.fallen(3).arbitrate("arbitration");
    of::<40959, WRAM, VRAM, OAM>(case, "cartridge one short");
    of::<40961, WRAM, VRAM, OAM>(case, "cartridge one long");
    of::<CARTRIDGE, 32767, VRAM, OAM>(case, "WRAM one short");
    of::<CARTRIDGE, 32769, VRAM, OAM>(case, "WRAM one long");
    of::<CARTRIDGE, WRAM, 16383, OAM>(case, "VRAM one short");
    of::<CARTRIDGE, WRAM, 16385, OAM>(case, "VRAM one long");
    of::<CARTRIDGE, WRAM, VRAM, 159>(case, "OAM one short");
    of::<CARTRIDGE, WRAM, VRAM, 161>(case, "OAM one long");
    of::<CARTRIDGE, WRAM, VRAM, OAM>(case, "each of its length, pairs");
}
