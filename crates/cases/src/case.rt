// A case under way: the public calls with the inputs that the cases leave alone, and a line for what each answers.
use crate::lent::Memory;
use crate::say::{self, Answer, Say};
use engine::{
    ArbitrationInput, BusInput, BusOutcome, Cgb, FallInput, HoldInput, Outcome, Refusal,
    SwitchInput, VramDmaClaim, WriteInput,
};
use std::fmt::Display;
use std::rt::Stdout;

// The state that the case has come to, and where its lines go.
#[derive(Clone, Copy)]
pub struct Case {
    pub out: Stdout,
    pub state: Cgb,
}

impl Case {
    pub fn power_on(out: Stdout, compat: bool) -> Self {
        let state = engine::power_on(compat);
        Case { out, state }
    }

    pub fn at(self, state: Cgb) -> Self {
        Case { state, ..self }
    }

    pub fn say(self, label: &str, said: impl Display + Drop) {
        say::line(self.out, format_args!("{label}: {said}"));
    }

    pub fn answered<T: Say + Drop>(self, label: &str, answer: Result<T, Refusal>) {
        self.say(label, Answer(answer));
    }

    // An answer that comes with a state, from which the case goes on.
    fn went_on<T: Say + Drop>(self, label: &str, outcome: Outcome<T>) -> Self {
        self.answered(label, outcome.answer);
        self.at(outcome.state)
    }

    // Whether every field is as in this other state: by the bytes, which the round trip shows to tell states apart. A derived `==` would have to
    // stand at the state and each of its parts, for this alone.
    fn same(self, before: Cgb) -> bool {
        codec::encode(self.state) == codec::encode(before)
    }

    pub fn compare(self, before: Cgb) {
        self.say("state as before", say::yes_or_no(self.same(before)));
    }

    fn write(self, address: u16, input: WriteInput) -> Outcome<()> {
        engine::write(self.state, &mut [0; memory::WRAM], address, input)
    }

    // A register write with the LCD on, of which only the state is wanted.
    pub fn set(self, address: u16, value: u8) -> Self {
        self.at(self.write(address, lit(value)).state)
    }

    pub fn set_in_the_dark(self, address: u16, value: u8) -> Self {
        let input = WriteInput {
            lcd_on: false,
            ..lit(value)
        };
        self.at(self.write(address, input).state)
    }

    // Object DMA from this page on, started at this edge.
    pub fn start_object_dma(self, page: u8, start_edge: u64) -> Self {
        let input = WriteInput {
            oam_start_edge: start_edge,
            ..lit(page)
        };
        self.at(self.write(0xFF46, input).state)
    }

    pub fn written(self, label: &str, address: u16, value: u8) -> Self {
        self.went_on(label, self.write(address, lit(value)))
    }

    pub fn read(self, label: &str, address: u16) {
        self.read_of(label, &[0; memory::WRAM], address);
    }

    pub fn read_of(self, label: &str, wram: &[u8], address: u16) {
        self.answered(label, engine::read(self.state, wram, address));
    }

    pub fn tally(self, label: &str) {
        self.answered(label, engine::tally(self.state));
    }

    pub fn object_dma(self, label: &str) {
        self.answered(label, engine::object_dma(self.state));
    }

    // A fall, running or halted, with nothing else going on.
    pub fn fall(self, mode: u8, halted: bool) -> Outcome<VramDmaClaim> {
        let input = FallInput {
            halted,
            ..running(mode)
        };
        engine::vram_dma_fall_edge(self.state, input)
    }

    pub fn fell(self, label: &str, mode: u8) -> Self {
        self.went_on(label, self.fall(mode, false))
    }

    // A running fall, of which only the state is wanted.
    pub fn fallen(self, mode: u8) -> Self {
        self.fallen_at(mode, 0)
    }

    // Likewise at a master edge, which a commit takes for its block.
    pub fn fallen_at(self, mode: u8, master_edge: u64) -> Self {
        let input = FallInput {
            master_edge,
            ..running(mode)
        };
        self.at(engine::vram_dma_fall_edge(self.state, input).state)
    }

    // Arbitration of a held bus while OAM DMA drives a byte.
    pub fn arbitrate(self, label: &str) -> Self {
        let input = ArbitrationInput {
            hold: true,
            suspended: false,
            oam_transferring: true,
        };
        self.went_on(label, engine::vram_dma_arbitrate_oam(self.state, input))
    }

    // Arbitration with object DMA as the state has it.
    pub fn arbitrate_inside(self, label: &str, hold: bool) -> Self {
        let input = HoldInput {
            hold,
            suspended: false,
        };
        self.went_on(label, engine::vram_dma_arbitrate_inside(self.state, input))
    }

    pub fn next(self, label: &str) -> Self {
        self.went_on(label, engine::next_byte(self.state))
    }

    pub fn drain_escape(self, label: &str) -> Self {
        self.went_on(label, engine::vram_dma_drain_escape(self.state))
    }

    // An attempt with no interrupt ready.
    pub fn switch(self, label: &str, dot_phase: u8, hold: bool) -> Self {
        let input = SwitchInput {
            hold,
            dot_phase,
            interrupt_ready: false,
            master_edge: 0,
        };
        self.went_on(label, engine::attempt_speed_switch(self.state, input))
    }

    pub fn drain_blackout(self, label: &str, elapsed: u32) -> Self {
        self.went_on(
            label,
            engine::drain_speed_switch_blackout(self.state, elapsed),
        )
    }

    // A line for each pair of a bus call, in order, as many as the answer says.
    fn bussed(self, label: &str, bussed: BusOutcome) -> Self {
        self.answered(label, bussed.answer);
        let count = bussed.answer.map_or(0, |moved| moved.count);
        let moved = bussed.pairs.iter().zip(bussed.bytes).zip(bussed.causes);
        for ((pair, byte), cause) in moved.take(usize::from(count)) {
            say::moved(self.out, *pair, byte, cause);
        }
        self.at(bussed.state)
    }

    // A held bus call beside an OAM DMA that started at this edge.
    pub fn bus_beside(self, label: &str, oam_start_edge: u64, lent: &mut Memory) -> Self {
        let input = BusInput {
            hold: true,
            suspended: false,
            oam_start_edge,
        };
        let bussed = engine::vram_dma_commit_bytes(
            self.state,
            input,
            &lent.cartridge,
            &lent.wram,
            &mut lent.vram,
            &mut lent.oam,
        );
        self.bussed(label, bussed)
    }

    // One in memory of its own.
    pub fn bus(self, label: &str) -> Self {
        self.bus_beside(label, 0, &mut Memory::new())
    }

    // Likewise, with object DMA's start edge as the state has it; behind the pairs the first places of OAM.
    pub fn bus_inside(self, label: &str) -> Self {
        let mut lent = Memory::new();
        let input = HoldInput {
            hold: true,
            suspended: false,
        };
        let bussed = engine::vram_dma_commit_bytes_inside(
            self.state,
            input,
            &lent.cartridge,
            &lent.wram,
            &mut lent.vram,
            &mut lent.oam,
        );
        let after = self.bussed(label, bussed);
        lent.say_oam(self.out);
        after
    }
}

// A write with the LCD on.
pub fn lit(value: u8) -> WriteInput {
    WriteInput {
        value,
        lcd_on: true,
        oam_start_edge: 0,
    }
}

// A fall while the CPU runs, with nothing else going on.
fn running(mode: u8) -> FallInput {
    FallInput {
        mode,
        halted: false,
        irq_latched: false,
        stopped: false,
        master_edge: 0,
        oam_owns_bus: false,
    }
}
