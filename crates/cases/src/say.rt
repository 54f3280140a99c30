// Lines of text: how an answer is said.
use engine::{
    Arbitration, BytePair, Cause, Cycle, Moved, ObjectDmaTally, Refusal, SwitchOutcome, Tally,
    VramDmaClaim,
};
use std::fmt::{self, Display};
use std::rt::Stdout;

// A line that cannot be written is lost.
pub fn line(out: Stdout, said: impl Display + Drop) {
    let _ = out.println(said);
}

// How a line says what a call gives. Not Display: that of `()`, `bool`, a pair or the engine's types is not this crate's to write.
pub trait Say {
    fn say<W: fmt::Write>(&self, f: &mut fmt::Formatter<W>) -> fmt::Result;
}

// What a call answers: what it gives, or the number of its refusal.
#[derive(Clone, Copy)]
pub struct Answer<T>(pub Result<T, Refusal>);

impl<T: Say> Display for Answer<T> {
    fn fmt<W: fmt::Write>(&self, f: &mut fmt::Formatter<W>) -> fmt::Result {
        match &self.0 {
            Ok(given) => given.say(f),
            Err(refusal) => write!(f, "refused {}", u8::from(*refusal)),
        }
    }
}

pub fn yes_or_no(yes: bool) -> &'static str {
    if yes { "yes" } else { "no" }
}

impl Say for () {
    fn say<W: fmt::Write>(&self, f: &mut fmt::Formatter<W>) -> fmt::Result {
        write!(f, "done")
    }
}

impl Say for u8 {
    fn say<W: fmt::Write>(&self, f: &mut fmt::Formatter<W>) -> fmt::Result {
        write!(f, "{self:02X}")
    }
}

impl Say for bool {
    fn say<W: fmt::Write>(&self, f: &mut fmt::Formatter<W>) -> fmt::Result {
        f.write_str(yes_or_no(*self))
    }
}

impl Say for VramDmaClaim {
    fn say<W: fmt::Write>(&self, f: &mut fmt::Formatter<W>) -> fmt::Result {
        write!(f, "accepted")
    }
}

// The end of a pair's line: nothing where the run goes on.
fn ending(cause: Cause) -> &'static str {
    match cause {
        Cause::GoingOn => "",
        Cause::CountedOut => ", counted out",
        Cause::Carried => ", carried",
    }
}

impl Say for (BytePair, Cause) {
    fn say<W: fmt::Write>(&self, f: &mut fmt::Formatter<W>) -> fmt::Result {
        let (pair, cause) = *self;
        write!(
            f,
            "{:04X} to {:04X}{}",
            pair.source,
            pair.dest,
            ending(cause)
        )
    }
}

impl Say for Option<(BytePair, Cause)> {
    fn say<W: fmt::Write>(&self, f: &mut fmt::Formatter<W>) -> fmt::Result {
        match self {
            Some(pair) => pair.say(f),
            None => write!(f, "none"),
        }
    }
}

// A pair with the byte that it moved.
pub fn moved(out: Stdout, pair: BytePair, byte: u8, cause: Cause) {
    let BytePair { source, dest } = pair;
    let end = ending(cause);
    line(
        out,
        format_args!("{source:04X} to {dest:04X}: {byte:02X}{end}"),
    );
}

// How many pairs a bus call moved, and whether a set-up cell used it up.
impl Say for Moved {
    fn say<W: fmt::Write>(&self, f: &mut fmt::Formatter<W>) -> fmt::Result {
        write!(f, "{}", self.count)?;
        if self.setup_cell {
            write!(f, ", set-up cell")?;
        }
        Ok(())
    }
}

impl Say for Arbitration {
    fn say<W: fmt::Write>(&self, f: &mut fmt::Formatter<W>) -> fmt::Result {
        f.write_str(match self {
            Arbitration::Clear => "clear",
            Arbitration::Contended => "contended",
            Arbitration::Stall => "stall",
        })
    }
}

impl Say for SwitchOutcome {
    fn say<W: fmt::Write>(&self, f: &mut fmt::Formatter<W>) -> fmt::Result {
        f.write_str(match self {
            SwitchOutcome::None => "none",
            SwitchOutcome::Discarded => "discarded",
            SwitchOutcome::Cut => "cut",
        })
    }
}

impl Say for Tally {
    fn say<W: fmt::Write>(&self, f: &mut fmt::Formatter<W>) -> fmt::Result {
        write!(
            f,
            "{:04X} {:04X} {}",
            self.source, self.dest, self.remaining
        )?;
        if self.escape_byte {
            write!(f, " escape")?;
        }
        Ok(())
    }
}

// What became of object DMA's next byte: its source, and itself where it moved.
impl Say for (Cycle, u8) {
    fn say<W: fmt::Write>(&self, f: &mut fmt::Formatter<W>) -> fmt::Result {
        let (cycle, byte) = *self;
        match cycle {
            Cycle::Nothing => write!(f, "nothing"),
            Cycle::Moved(source) => write!(f, "{source:04X}, byte {byte:02X}"),
            Cycle::PassedOver(source) => write!(f, "{source:04X} passed over"),
        }
    }
}

impl Say for ObjectDmaTally {
    fn say<W: fmt::Write>(&self, f: &mut fmt::Formatter<W>) -> fmt::Result {
        let runs = if self.runs { "runs" } else { "at rest" };
        write!(
            f,
            "{runs}, counted {}, page {:02X}",
            self.counted, self.page
        )
    }
}

// Bytes, each behind a space.
#[derive(Clone, Copy)]
pub struct Row<'a>(pub &'a [u8]);

impl Display for Row<'_> {
    fn fmt<W: fmt::Write>(&self, f: &mut fmt::Formatter<W>) -> fmt::Result {
        for byte in self.0 {
            write!(f, " {byte:02X}")?;
        }
        Ok(())
    }
}
