// What a call gives, as numbers: the refusal or 0, then up to four values in the order of the definitions
// (answers/specs/Answers); with a bus call's pairs, causes and bytes, the byte of an M-cycle call, and the state.
#![tactic(auto)]

ghost use Rattle.std.specs.Prelude.{◌≡◌};
ghost use Rattle.answers.specs.Answers.{cause_numbers, says, outcome_says};
ghost use Rattle.told.specs.Told.{told_of, told_refused, quietly, telling};

use answers::Outcome;
use answers::values::{Values, cause_number};
use bus::commit::NO_PAIRS;
use console::Cgb;
use console::refusal::Refusal;
use transfer::pair::{BytePair, Cause};

// For a program in another language, so numbers alone: it has no Option and no enum with a value.
#[derive(Clone, Copy)]
pub struct Told {
    pub refusal: u8,
    pub values: [u16; 4],
}

// What a call said and left, in numbers as `Told` and for the same reason. The arrays are a bus call's, its pairs' causes as numbers, and an M-cycle call's byte is the first: of
// another call they are 0.
#[derive(Clone, Copy)]
pub struct Performed {
    pub told: Told,
    pub pairs: [BytePair; 2],
    pub causes: [u8; 2],
    pub bytes: [u8; 2],
    pub state: Cgb,
}

// A declined call's: the number, and no value. It takes any number, as it did: a Refusal would ask more of its callers.
pub fn refused(number: u8) -> Told
    ensures { result ≡ told_refused number }
{
    Told {
        refusal: number,
        values: [0; 4],
    }
}

pub fn of<T: Values>(answer: Result<T, Refusal>) -> Told
    ensures { result ≡ told_of (says T.values answer) }
{
    match answer {
        Ok(value) => {
            let values = value.four();
            Told { refusal: 0, values }
        }
        Err(refusal) => refused(u8::from(refusal)),
    }
}

// A call that hands out no bytes.
pub fn quiet(told: Told, state: Cgb) -> Performed
    ensures { result ≡ quietly told state }
{
    Performed {
        told,
        pairs: NO_PAIRS,
        causes: [0u8; 2],
        bytes: [0u8; 2],
        state,
    }
}

// One that answers with the state beside it.
pub fn outcome<T: Values>(done: Outcome<T>) -> Performed
    ensures { result ≡ telling (outcome_says T.values done) done.state }
{
    quiet(of(done.answer), done.state)
}

// The causes of a bus call's pairs.
pub fn of_causes(causes: [Cause; 2]) -> [u8; 2]
    ensures { result ≡ cause_numbers causes }
{
    [cause_number(causes[0]), cause_number(causes[1])]
}
