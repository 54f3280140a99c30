// The state of the transfer engine: the structs of vram_dma.rs, field for field. docs/MANUAL.md says of each field what sets it and
// what looks at it.
use countdown::Countdown;

// How the active transfer is paced: General holds the CPU and flows; HBlank, "armed", moves a block of 16 bytes in an HBlank.
#[derive(Clone, Copy, PartialEq, Eq, Default)]
pub enum TransferMode {
    #[default]
    Idle,
    General,
    HBlank,
}

// The running byte engine. The pointers persist after a transfer: the next one goes on where they stand.
#[derive(Clone, Copy, Default)]
pub struct TransferCursor {
    // Where the next byte is read: the running register of FF51 and FF52.
    pub source: u16,
    // The running register of FF53 and FF54. All 16 bits: folded into VRAM where it is used, never at the write.
    pub dest: u16,
    // How the transfer is paced, if there is one.
    pub mode: TransferMode,
    // Bytes left in the whole transfer: "left".
    pub remaining: u16,
    // Bytes that may still move before the next fall; every accepted fall sets it anew.
    pub quota: u8,
    // A cut owes one byte outside the length: the "escape".
    pub escape_byte: bool,
}

// The 16-byte block of one HBlank, and its bus tenure.
#[derive(Clone, Copy, Default)]
pub struct HblankBlock {
    // Bytes left in the latched block: "block". 0 is none.
    pub remaining: u8,
    // The master edge at which the block committed: the origin of its byte clock beside OAM DMA's.
    pub start_edge: u64,
    // This HBlank has had its block, or is passed over: no new pend in the rest of it.
    pub taken: bool,
    // Leading bus calls of the block that move no byte: the engine loads its working pointers in them.
    pub setup_cells: Countdown,
    // Ungated falls until the block claims the bus; 0 is ready.
    pub ready_in: Countdown,
    // Ungated falls that the bus has been seized without a break, up to 255.
    pub seize_falls: u8,
    // The block committed while `pend_from_arm` stood: an arm strobe's, of FF55 or of the LCD-off call.
    pub from_arm: bool,
    // Such a block has become ready and awaits its sample of mode 0: the next fall must be in it.
    pub arm_ready_probation: bool,
}

// The pend and grant arbiter of HBlank blocks, across HALT and wake. `pend_from_arm` and `pend_granted` are marks on a pend, not
// kinds of it: both may stand, and `pend_granted` may outlive the pend.
#[derive(Clone, Copy, Default)]
pub struct HaltArbiter {
    // A block is asked for: the next ungated fall commits it, asks anew or drops it.
    pub pend: bool,
    // The pend is an arm strobe's: it commits though mode 0 has ended, and its block has no set-up cell.
    pub pend_from_arm: bool,
    // FF55 has armed since the last fall that was not gated: a pend that the next one forms is an arm strobe's.
    pub armed_this_fall: bool,
    // Falls in a row with the CPU halted, up to 255; 0 while it runs.
    pub halted_falls: u8,
    // The previous fall was in mode 0: mode 0 now is then no entry.
    pub prev_view_hblank: bool,
    // Gated falls that the pend has stood through, up to 255.
    pub pend_age: u8,
    // The halt granted the pend: at an ungated fall it commits whatever the mode, and while the CPU is still halted.
    pub pend_granted: bool,
    // Ungated falls left of the bus tenure of a block that a halt granted: an entry in it is passed over. The "tenure of 36".
    pub wake_tenure: Countdown,
    // The block committed onto a running CPU: its bus grant waits until the instruction under way has retired. The "park".
    pub park_waits_for_fetch: bool,
    // The tenure consumed an entry while bytes were left: the engine holds the VRAM select, moving no byte, until a block is served.
    pub idle_claim: bool,
    // Ungated falls left in which an entry after a wake from HALT is passed over: the "blind of 3".
    pub halt_wake_blind: Countdown,
    // The CPU was halted at the previous fall: tells the halt latch and the wake.
    pub prev_cpu_halted: bool,
    // `granted_ahead` has the pending block already: its commit does not count it again.
    pub grant_counted: bool,
    // Ungated falls left in which an entry after an upward switch is passed over, the first excepted: the "blind of 6".
    pub wake_pend_blind: Countdown,
    // Blocks counted out of FF55 ahead of their bytes: "granted".
    pub granted_ahead: u8,
}

// The shared bus of OAM DMA and VRAM DMA.
#[derive(Clone, Copy, Default)]
pub struct OamContention {
    // OAM DMA drove a byte at the last arbitration: the M-cycle in which it ends still shares the bus.
    pub was_transferring: bool,
    // The last arbitration found both on the bus: until the next one a bus call that moves bytes deposits one in OAM.
    pub contended: bool,
}

#[derive(Clone, Copy, Default)]
pub struct VramDma {
    // Pointers, mode, what is left.
    pub cursor: TransferCursor,
    // The latched block.
    pub block: HblankBlock,
    // When a block is asked for, and when it commits.
    pub arb: HaltArbiter,
    // The bus beside OAM DMA.
    pub oam: OamContention,
}
