// A record's line as text in a lent buffer.
ghost use Rattle.std.specs.Prelude.{◌++◌};
ghost use Rattle.text.specs.Text.{field, Pushed};
ghost use Rattle.replay_step.specs.Line.{line_text};

use crate::step::Line;
use text::Text;

// Its decimal numbers in front of FF55.
fn push_numbers(text: &mut Text, number: u64, line: Line)
    ensures { Pushed text.old (field number ++ field line.refusal ++ field line.pairs ++ field line.left) text.new }
{
    text.push_field(number);
    text.push_small_field(u64::from(line.refusal));
    text.push_small_field(u64::from(line.pairs));
    text.push_field(u64::from(line.left));
}

#[tactic(auto, unfolding(crate::specs::Line::line_text))]
pub fn push_line(text: &mut Text, number: u64, line: Line)
    ensures { Pushed text.old (line_text number line) text.new }
{
    push_numbers(text, number, line);
    text.push_hex(line.ff55);
    text.push(b' ');
    text.push_small(u64::from(line.cause));
    text.push(b'\n');
}
