// judge SCRIPT LOG: whether a board's log of a replay script is the engine's own (document 02, A2). It prints one line: yes, the
// number of the first record that is not the engine's, or "refused 22". Both files pass once, in step, through buffers of fixed
// size. The answer waits until both have ended, or one has and more of the other comes, since 22 comes before any record.
#![tactic(auto)]

ghost use Rattle.judge.specs.Turn.{Turns};

use board_log::judging::Judge;
use board_log::verdict::Verdict;
use board_log::{judging, verdict};
use log_parts::judge_part;
use std::fs::File;
use std::io::{Read, Write};
use std::rt::Env;
use std::{fs, io};
use stream::Buffer;
use stream::argument::has_argument;
use text::Text;

// The file that an argument names, open for reading, if it can be.
fn opened(rt: &HostRuntime, argument: usize) -> Option<File> {
    let mut path = [0u8; 4096];
    let Ok(n) = rt.arg(argument, &mut path) else {
        return None;
    };
    // std opens no file whose name is not UTF-8
    let Ok(name) = str::from_utf8(&path[..n]) else {
        return None;
    };
    fs::open(rt, name).ok()
}

// A file is read where less than a record of it waits; then what is whole in both is judged. Whether another turn may follow: not after one in
// which such a file brought nothing, since then no whole record is left in both, and of a longer file some bytes wait.
fn turn<R: Read>(
    judge: &mut Judge,
    script: &mut Buffer<R, 65536>,
    log: &mut Buffer<R, 65536>,
    wram: &mut [u8],
) -> io::Result<bool>
    ensures { Turns judge.old wram.old script.old log.old judge.new script.new log.new wram.new }
{
    let more_script = script.refill(16);
    let more_log = log.refill(16);
    let fed = judge_part::feed(*judge, script.waiting(), log.waiting(), wram);
    *judge = fed.judge;
    script.take(fed.taken);
    log.take(fed.taken);
    Ok(more_script? & more_log?)
}

fn judged(script_file: File, log_file: File) -> io::Result<Verdict> {
    let mut script = Buffer::new(script_file);
    let mut log = Buffer::new(log_file);
    let mut wram = [0u8; 32768];
    let mut judge = judging::begin();
    // to the end of the input: a loop has to end, and one over `forever` would need the handle Wait
    for _ in 0..u64::MAX {
        if !turn(&mut judge, &mut script, &mut log, &mut wram)? {
            break;
        }
    }
    Ok(verdict::conclude(judge, script.waiting().len(), log.waiting().len()))
}

// Whether there are two arguments, behind the program's own name, which is number 0.
fn has_two_arguments(rt: &impl Env) -> bool {
    has_argument(rt, 2) && !has_argument(rt, 3)
}

// A file that cannot be opened or read gets 22.
fn answer(rt: &HostRuntime) -> Verdict {
    if !has_two_arguments(rt) {
        return Verdict::Refused;
    }
    let (Some(script), Some(log)) = (opened(rt, 1), opened(rt, 2)) else {
        return Verdict::Refused;
    };
    judged(script, log).unwrap_or(Verdict::Refused)
}

fn main(rt: HostRuntime) {
    let mut line = [0u8; 32];
    let mut text = Text {
        out: &mut line,
        at: 0,
    };
    verdict::push_verdict(&mut text, answer(&rt));
    let _ = rt.stdout().write_all(text.stored());
}
