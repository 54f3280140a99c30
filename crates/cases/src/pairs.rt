// K4 and K5: General transfers by rounds of a fall and next pairs.
use crate::case::Case;
use crate::say;
use engine::{BytePair, Cause};
use std::rt::Stdout;

// A transfer under way, with what has come of it.
#[derive(Clone, Copy)]
pub struct Run {
    pub case: Case,
    falls: u8,
    pairs: u8,
    last: Option<(BytePair, Cause)>,
}

impl Run {
    pub fn new(case: Case) -> Self {
        Run {
            case,
            falls: 0,
            pairs: 0,
            last: None,
        }
    }

    fn fallen(self) -> Self {
        Run {
            case: self.case.fallen(3),
            falls: self.falls.saturating_add(1),
            ..self
        }
    }

    // A next pair; where none comes, a fall.
    fn turn(self) -> Self {
        let handed = engine::next_byte(self.case.state);
        let Ok(Some(pair)) = handed.answer else {
            return self.fallen();
        };
        Run {
            case: self.case.at(handed.state),
            pairs: self.pairs.saturating_add(1),
            last: Some(pair),
            ..self
        }
    }

    // Goes on until so many pairs came. A loop has to end: so many turns no case reaches.
    pub fn until(self, wanted: u8) -> Self {
        let mut run = self;
        for _ in 0..200 {
            if run.pairs == wanted {
                return run;
            }
            run = run.turn();
        }
        run
    }

    fn tell(self) {
        self.case.say("pairs", self.pairs);
        self.case.say("falls", self.falls);
        self.case.answered("last pair", Ok(self.last));
    }
}

fn general(out: Stdout, high: u8, low: u8, length: u8) -> Run {
    let start = Case::power_on(out, false);
    Run::new(start.set(0xFF53, high).set(0xFF54, low).set(0xFF55, length))
}

// Nothing is left: another fall brings no pair.
fn ended(case: Case) {
    case.tally("tally");
    case.read("FF55", 0xFF55);
    case.fallen(3).next("a fall, next pair");
}

pub fn k4(out: Stdout) {
    say::line(out, "K4");
    let first = general(out, 0xFF, 0xF0, 0x01).until(1);
    first.tell();
    let all = first.until(16);
    all.tell();
    ended(all.case);
}

pub fn k5(out: Stdout) {
    say::line(out, "K5");
    let row = general(out, 0x9F, 0xF0, 0x01).until(16);
    row.tell();
    let folded = row.until(17);
    folded.tell();
    let all = folded.until(32);
    all.tell();
    ended(all.case);
}
