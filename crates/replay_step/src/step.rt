// What a record does, and the numbers of its line.
ghost use Rattle.std.specs.Prelude.{◌≡◌};
ghost use Rattle.replay_step.specs.Step.{hands_pair, line_of, pair_line_of, told_pair, Steps};

use call::{Call, PlainCall};
use console::Cgb;
use told::Told;
use transfer::pair::BytePair;

// A line without its number: the refusal or 0, how many pairs came, what is left and FF55 after the record, and the pair with the
// number of its cause (document 02, A3). The line shows the cause and not the pair, the board's log the pair and not the cause. Of numbers, 0
// where no pair came, as both write them: an Option would be taken apart in each.
#[derive(Clone, Copy)]
pub struct Line {
    pub refusal: u8,
    pub pairs: u8,
    pub left: u16,
    pub ff55: u8,
    pub source: u16,
    pub dest: u16,
    pub cause: u16,
}

#[derive(Clone, Copy)]
pub struct Stepped {
    pub line: Line,
    pub state: Cgb,
}

// Whether a call is one that hands out a pair.
#[tactic(auto, unfolding(crate::specs::Step::hands_pair))]
fn hands_pair(call: Option<Call>) -> bool
    ensures { result ≡ hands_pair call }
{
    matches!(
        call,
        Some(Call::Plain(PlainCall::NextPair | PlainCall::EscapeDrain))
    )
}

// The pair that a call told, if it is one that hands out a pair, with the number of its cause.
#[tactic(auto, unfolding(crate::specs::Step::told_pair))]
fn handed(hands: bool, told: Told) -> Option<(BytePair, u16)>
    ensures { result ≡ told_pair hands told }
{
    let [came, source, dest, cause] = told.values;
    (hands & (came != 0)).then_some((BytePair { source, dest }, cause))
}

// The line of a call without a pair.
#[tactic(auto, unfolding(crate::specs::Step::line_of))]
fn quiet(refusal: u8, state: Cgb) -> Stepped
    ensures { result ≡ line_of refusal state }
{
    Stepped {
        line: Line {
            refusal,
            pairs: 0,
            left: state.vram_dma.cursor.remaining,
            ff55: hdma::hdma5::status_byte(state.vram_dma),
            source: 0,
            dest: 0,
            cause: 0,
        },
        state: state.anew(),
    }
}

// The same of a call that may have told a pair, with the number of its cause.
#[tactic(auto, unfolding(crate::specs::Step::pair_line_of, crate::specs::Step::line_of))]
fn lined(refusal: u8, answer: Option<(BytePair, u16)>, state: Cgb) -> Stepped
    ensures { result ≡ pair_line_of refusal answer state }
{
    let quiet = quiet(refusal, state);
    let Some((pair, cause)) = answer else {
        return quiet;
    };
    Stepped {
        line: Line {
            pairs: 1,
            source: pair.source,
            dest: pair.dest,
            cause,
            ..quiet.line
        },
        ..quiet
    }
}

// A record's call at a state. A record of another kind, or a short one, has none and gets 6.
#[tactic(auto, unfolding(crate::specs::Step::step_of))]
pub fn perform(state: Cgb, wram: &mut [u8], given: Option<Call>) -> Stepped
    ensures { Steps state wram.old given result wram.new }
{
    let done = perform::perform_record(state, given, &[], wram, &mut [], &mut []);
    lined(
        done.told.refusal,
        handed(hands_pair(given), done.told),
        done.state,
    )
}
