// The outcome of a call: its value and the state after it, or its refusal and the state as before.
ghost use Rattle.std.specs.Prelude.{◌≡◌};
ghost use Rattle.console.specs.Reached.{state_refusal};
ghost use Rattle.answers.specs.Answers.{AnswersOutcome};

use crate::Outcome;
use crate::values::Values;
use console::Cgb;
use console::refusal::Refusal;

pub fn decided<T: Values>(refusal: Option<Refusal>, before: Cgb, value: T, after: Cgb) -> Outcome<T>
    ensures { AnswersOutcome T.values refusal before value after result }
{
    match refusal {
        None => Outcome {
            answer: Ok(value),
            state: after,
        },
        Some(refusal) => Outcome {
            answer: Err(refusal),
            state: before,
        },
    }
}

// Of a call that 7 alone declines.
pub fn reached<T: Values>(state: Cgb, value: T, after: Cgb) -> Outcome<T>
    ensures { AnswersOutcome T.values (state_refusal state) state value after result }
{
    decided(state.reached().err(), state, value, after)
}
