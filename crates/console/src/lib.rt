// The console's state, as far as this port goes (lib.rs, `Cgb`; console_state.rs; vram.rs). docs/MANUAL.md says of each field what
// sets it and what looks at it.
#![tactic(auto)]

pub mod anew;
pub mod object;
pub mod power_on;
pub mod refusal;
pub mod vram_dma;

use crate::object::ObjectDma;
use vram_dma::VramDma;

// The claim of the last commit (missingno_gb, `VramDmaClaim`); both flags are false until the first.
#[derive(Clone, Copy, Default)]
pub struct VramDmaClaim {
    // A block has committed.
    pub committed: bool,
    // Its pend had stood through 4 gated falls or more, and OAM DMA owned no bus.
    pub standing: bool,
}

// Console-level state. Hold and suspension are inputs of the calls that look at them.
#[derive(Clone, Copy, Default)]
pub struct CgbConsoleState {
    // The master edge of the last switch: where the count of its blackout begins. No call looks at it.
    pub blackout_anchor: u64,
    // What the last commit claimed; a fall without a commit keeps it.
    pub vram_dma_claim: VramDmaClaim,
}

// The bank that VBK (FF4F) selects; the banks themselves are lent memory.
#[derive(Clone, Copy, Default)]
pub struct CgbVram {
    // VBK (FF4F) bit 0.
    pub selected: u8,
}

#[derive(Clone, Copy)]
pub struct Cgb {
    // SVBK (FF70) bits 0 to 2 as written; 0 selects bank 1.
    pub svbk: u8,
    // KEY1 (FF4D) bit 0: a switch is armed.
    pub key1_armed: bool,
    // KEY1 (FF4D) bit 7: the current speed.
    pub double_speed: bool,
    // A DMG cartridge runs in compatibility mode: "compat". Power-on fixes it.
    pub dmg_compat: bool,
    // The transfer engine (FF51 to FF55).
    pub vram_dma: VramDma,
    // Master edges left of a switch's blackout; 0 is none.
    pub speed_switch_blackout: u32,
    // A wake that comes in a blackout takes its intake first: the M-cycle boundaries left of that; none where no wake is in flight.
    pub speed_switch_wake_latency: Option<u8>,
    // The clock lies displaced since an upward switch at dot phase 3: it shortens the next downward blackout by 2 edges and
    // lengthens the next upward one by 2, which spends it.
    pub switch_relock_debit: bool,
    // Scratch register FF72: a whole byte.
    pub ff72: u8,
    // Scratch register FF73: a whole byte.
    pub ff73: u8,
    // Scratch register FF74: a whole byte; compat locks it.
    pub ff74: u8,
    // Scratch register FF75: bits 4 to 6 alone.
    pub ff75: u8,
    // Behind FEA0 to FEFF: three rows of 8 bytes, each seen four times.
    pub extra_oam: [u8; 24],
    // VRAM's bank.
    pub vram: CgbVram,
    // What the console around the engine keeps.
    pub console_state: CgbConsoleState,
    // Object DMA (FF46).
    pub object_dma: ObjectDma,
}
