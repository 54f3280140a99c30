// A part of a script and a board's log, judged.
ghost use Rattle.std.specs.Prelude.{◌≡◌};
ghost use Rattle.board_log.specs.Judging.{hearing_of, judged_record, Feeds};

use board_log::judging::{Fed, Judge};
use board_log::log_record::log_record;
use board_log::records::whole_in_both;
use replay_step::{read, step};

// A record of the script, and the board's record of it.
fn judge_record(j: Judge, script: &[u8; 16], log: &[u8; 16], wram: &mut [u8]) -> Judge
    ensures { hearing_of result wram.new ≡ judged_record (hearing_of j wram.old) script.now log.now }
{
    let stepped = step::perform(j.state, wram, read::record_of(script));
    // all 16 bytes count
    let same = *log == log_record(stepped.line);
    let differs = j.differs | !same;
    Judge {
        state: stepped.state,
        agreed: if differs {
            j.agreed
        } else {
            j.agreed.wrapping_add(1)
        },
        differs,
    }
}

// What comes next of script and log: every record that is whole in both is judged. The rest is to be shown again.
#[tactic(auto, unfolding(board_log::specs::Judging::judged_part, board_log::specs::Records::whole_in_both))]
pub fn feed(j: Judge, script: &[u8], log: &[u8], wram: &mut [u8]) -> Fed
    ensures { Feeds j wram.old script.now log.now result wram.new }
{
    let (asked, _) = script.as_chunks::<16>();
    let (logged, _) = log.as_chunks::<16>();
    let mut judge = j;
    for (entry, record) in asked.iter().zip(logged) {
        judge = judge_record(judge, entry, record, wram);
    }
    Fed {
        judge,
        taken: whole_in_both(script.len(), log.len()),
    }
}
