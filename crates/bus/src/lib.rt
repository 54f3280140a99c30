// The bus that VRAM DMA shares with OAM DMA: what arbitration and the bus call are given and give. Definitions and laws stand
// in specs/ and proofs/; the functions in `oam_arbitration`, `bus_memory` (where a byte is read and stored), `bus_pairs` (the
// call's loop), `oam_deposit` (the byte that lands in OAM) and `bus_commit` (the call).
#![tactic(auto)]

pub mod arbitration;
pub mod commit;
pub mod hold;
