// The engine's door: power-on and every call of document 01, in the paper's order, then those of document 02, each passed on from the crate that is about it.
// Code above names the calls, their inputs and their answers by this crate alone. A call that takes a state tests 7 and its own
// refusals in the paper's order, and hands back what it was given where it declines.
#![tactic(auto)]

// Section 1. The state that a run starts from, with or without DMG compatibility.
pub use console::power_on::power_on;
// A read and a write of a register or of work RAM.
pub use register_calls::{read, write};

// Section 2. A fall: one evaluation on a falling dot clock edge.
pub use fall_call::vram_dma_fall_edge;

// Section 3. The next pair that the engine hands out.
pub use transfer_calls::pair::next_byte;
// The bytes that the engine moves in an M-cycle.
pub use bus_calls::bus_call::vram_dma_commit_bytes;
// Arbitration with OAM DMA.
pub use bus_calls::shared_bus::vram_dma_arbitrate_oam;

// Section 4. A STOP that attempts the speed switch.
pub use speed_calls::attempt_speed_switch;
// The pair of an owed escape, moved by nobody.
pub use transfer_calls::pair::vram_dma_drain_escape;
// The LCD goes off.
pub use transfer_calls::lcd::vram_dma_lcd_disabled;
// The source of the byte that a CPU access collides with.
pub use bus_calls::shared_bus::vram_dma_conflict_source;
// An instruction retires.
pub use transfer_calls::lcd::vram_dma_instruction_retired;
// Edges of the blackout pass, and a wake in it.
pub use speed_calls::{drain_speed_switch_blackout, speed_switch_wake_ready};

// Section 5. The tally: pointers, left and escape flag.
pub use engine_queries::tally;
// What else is asked: of the engine,
pub use engine_queries::{
    vram_dma_claim, vram_dma_holds_cpu, vram_dma_park_waits_for_fetch, vram_dma_request_standing,
    vram_dma_seizes_bus, vram_dma_status,
};
// of the speed and its switch,
pub use speed_queries::{
    cpu_steps_per_dot, double_speed, speed_switch_divider_active, speed_switch_in_progress,
};
// and of FF70.
pub use bank_queries::{svbk_register, wram_bank};

// Document 02, A1. Object DMA: its M-cycle call, arbitration and the bus call with its state from inside, what is asked of it.
pub use bus_calls::inside::{vram_dma_arbitrate_inside, vram_dma_commit_bytes_inside};
pub use object_dma_calls::cycle::object_dma_m_cycle;
pub use object_dma_calls::query::object_dma;

// What the calls take,
pub use bus::arbitration::{Arbitration, ArbitrationInput};
pub use bus::commit::BusInput;
pub use bus::hold::HoldInput;
pub use console::Cgb;
pub use fall_edge::FallInput;
pub use map_write::WriteInput;
pub use speed_switch::switch::SwitchInput;
// and what they answer, alone or beside the next state.
pub use answers::{BusOutcome, Cycle, Cycled, Moved, ObjectDmaTally, Outcome, Tally};
pub use console::VramDmaClaim;
pub use console::refusal::Refusal;
pub use cut::SwitchOutcome;
pub use transfer::VramDmaStatus;
pub use transfer::pair::{BytePair, Cause};
