// The state put anew field by field. Moved whole, it goes through memory with the spaces between its fields; put anew once where a call
// or a step hands it on, its fields stay in registers (docs/PERFORMANCE.md).
ghost use Rattle.std.specs.Prelude.{◌≡◌};

use crate::object::ObjectDma;
use crate::vram_dma::{HaltArbiter, HblankBlock, OamContention, TransferCursor, VramDma};
use crate::{Cgb, CgbConsoleState, CgbVram, VramDmaClaim};
use countdown::Countdown;

impl TransferCursor {
    fn anew(self) -> Self
        ensures { result ≡ self }
    {
        TransferCursor {
            source: self.source,
            dest: self.dest,
            mode: self.mode,
            remaining: self.remaining,
            quota: self.quota,
            escape_byte: self.escape_byte,
        }
    }
}

impl HblankBlock {
    fn anew(self) -> Self
        ensures { result ≡ self }
    {
        HblankBlock {
            remaining: self.remaining,
            start_edge: self.start_edge,
            taken: self.taken,
            setup_cells: Countdown(self.setup_cells.0),
            ready_in: Countdown(self.ready_in.0),
            seize_falls: self.seize_falls,
            from_arm: self.from_arm,
            arm_ready_probation: self.arm_ready_probation,
        }
    }
}

impl HaltArbiter {
    fn anew(self) -> Self
        ensures { result ≡ self }
    {
        HaltArbiter {
            pend: self.pend,
            pend_from_arm: self.pend_from_arm,
            armed_this_fall: self.armed_this_fall,
            halted_falls: self.halted_falls,
            prev_view_hblank: self.prev_view_hblank,
            pend_age: self.pend_age,
            pend_granted: self.pend_granted,
            wake_tenure: Countdown(self.wake_tenure.0),
            park_waits_for_fetch: self.park_waits_for_fetch,
            idle_claim: self.idle_claim,
            halt_wake_blind: Countdown(self.halt_wake_blind.0),
            prev_cpu_halted: self.prev_cpu_halted,
            grant_counted: self.grant_counted,
            wake_pend_blind: Countdown(self.wake_pend_blind.0),
            granted_ahead: self.granted_ahead,
        }
    }
}

impl VramDma {
    fn anew(self) -> Self
        ensures { result ≡ self }
    {
        VramDma {
            cursor: self.cursor.anew(),
            block: self.block.anew(),
            arb: self.arb.anew(),
            oam: OamContention {
                was_transferring: self.oam.was_transferring,
                contended: self.oam.contended,
            },
        }
    }
}

impl Cgb {
    pub fn anew(self) -> Self
        ensures { result ≡ self }
    {
        Cgb {
            vram_dma: self.vram_dma.anew(),
            vram: CgbVram {
                selected: self.vram.selected,
            },
            console_state: CgbConsoleState {
                blackout_anchor: self.console_state.blackout_anchor,
                vram_dma_claim: VramDmaClaim {
                    committed: self.console_state.vram_dma_claim.committed,
                    standing: self.console_state.vram_dma_claim.standing,
                },
            },
            object_dma: ObjectDma {
                running: self.object_dma.running,
                page: self.object_dma.page,
                counted: self.object_dma.counted,
                start_edge: self.object_dma.start_edge,
            },
            ..self
        }
    }
}
