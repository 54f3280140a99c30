// K9: blocks are granted and never moved, until the count is full.
use crate::case::Case;
use crate::say;
use engine::Refusal;
use std::rt::Stdout;

// The six falls of a round: the mode, and whether the CPU is halted.
const FALLS: [(u8, bool); 6] = [
    (3, false),
    (3, true),
    (3, true),
    (0, true),
    (0, false),
    (0, false),
];

// Where a fall was refused, and the state that it handed back.
#[derive(Clone, Copy)]
struct Refused {
    round: u16,
    fall: usize,
    refusal: Refusal,
    before: Case,
    after: Case,
}

// A loop has to end: so many rounds no case reaches.
fn first_refusal(start: Case) -> Option<Refused> {
    let mut case = start;
    for round in 1..1000 {
        for (i, (mode, halted)) in FALLS.into_iter().enumerate() {
            let fell = case.fall(mode, halted);
            let after = case.at(fell.state);
            if let Err(refusal) = fell.answer {
                return Some(Refused {
                    round,
                    fall: i + 1,
                    refusal,
                    before: case,
                    after,
                });
            }
            case = after;
        }
    }
    None
}

fn tell(refused: Refused) {
    let after = refused.after;
    after.say("first refusal in round", refused.round);
    after.say("fall", refused.fall);
    after.say("refused", u8::from(refused.refusal));
    after.compare(refused.before.state);
    after.tally("tally");
    after.read("FF55", 0xFF55);
}

pub fn k9(out: Stdout) {
    say::line(out, "K9");
    match first_refusal(Case::power_on(out, false).set(0xFF55, 0xFF)) {
        Some(refused) => tell(refused),
        None => say::line(out, "no fall is refused"),
    }
}
