// One record of the log.
ghost use Rattle.std.specs.Prelude.{◌≡◌};
ghost use Rattle.board_log.specs.LogRecord.{log_record};

use replay_step::step::Line;

// The engine's record of a step. One literal in the layout's order, as the definition is one list.
#[tactic(auto, unfolding(crate::specs::LogRecord::log_record))]
pub fn log_record(line: Line) -> [u8; 16]
    ensures { result ≡ log_record line }
{
    let [left_low, left_high] = line.left.to_le_bytes();
    let [source_low, source_high] = line.source.to_le_bytes();
    let [dest_low, dest_high] = line.dest.to_le_bytes();
    [
        line.refusal,
        line.pairs,
        left_low,
        left_high,
        line.ff55,
        source_low,
        source_high,
        dest_low,
        dest_high,
        0,
        0,
        0,
        0,
        0,
        0,
        0,
    ]
}
