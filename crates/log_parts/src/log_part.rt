// A part of the engine's own log of a script.
ghost use Rattle.board_log.specs.OwnLog.{Logs};

use board_log::log_record::log_record;
use board_log::own::Logged;
use board_log::records::whole_in_both;
use console::Cgb;
use replay_step::{read, step};
use text::Text;

// The log of what comes next of a script, from the front of `out` on: of as many records as are whole there and have room here.
#[tactic(auto, unfolding(board_log::specs::Records::whole_in_both))]
pub fn put_log(state: Cgb, script: &[u8], out: &mut [u8], wram: &mut [u8]) -> Logged
    ensures { Logs state wram.old script.now out.old result wram.new out.new }
{
    let taken = whole_in_both(script.len(), out.len());
    let (asked, _) = script.as_chunks::<16>();
    let mut engine = state;
    let mut log = Text { out, at: 0 };
    for entry in &asked[..taken / 16] {
        let stepped = step::perform(engine, wram, read::record_of(entry));
        engine = stepped.state;
        log.push_text(&log_record(stepped.line));
    }
    Logged {
        state: engine,
        taken,
    }
}
