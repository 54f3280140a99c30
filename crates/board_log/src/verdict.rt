// The judge's answer, and its line.
ghost use Rattle.std.specs.Prelude.{◌≡◌};
ghost use Rattle.text.specs.Text.{Pushed};
ghost use Rattle.board_log.specs.Verdict.{verdict_of, verdict_text};

use crate::judging::Judge;
use text::Text;

// Every record is the engine's; the number from 0 of the first that is not; or 22. No Result: 22 is an answer of the program, which prints it as
// the others, and no call's refusal.
#[derive(Clone, Copy)]
pub enum Verdict {
    Yes,
    Wrong(u64),
    Refused,
}

// The answer where so many bytes of script and log are left over.
#[tactic(auto, unfolding(crate::specs::Verdict::verdict_of))]
pub fn conclude(j: Judge, script_left: usize, log_left: usize) -> Verdict
    ensures { result ≡ verdict_of j script_left log_left }
{
    if (script_left != 0) | (log_left != 0) {
        return Verdict::Refused;
    }
    if j.differs {
        return Verdict::Wrong(j.agreed);
    }
    Verdict::Yes
}

// Not as Display: std promises what `write!` writes only where it answers Ok, and no contract says that it does.
#[tactic(auto, unfolding(crate::specs::Verdict::verdict_text))]
pub fn push_verdict(text: &mut Text, verdict: Verdict)
    ensures { Pushed text.old (verdict_text verdict) text.new }
{
    match verdict {
        Verdict::Yes => text.push_text(b"yes\n"),
        Verdict::Wrong(number) => {
            text.push_decimal(number);
            text.push(b'\n');
        }
        Verdict::Refused => text.push_text(b"refused 22\n"),
    }
}
