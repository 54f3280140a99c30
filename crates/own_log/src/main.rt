// own_log: reads a replay script from standard input and writes the engine's own log of it to standard output, as a board would
// (document 02, A2). Each read's records are written before the next read. On standard error it says what keeps the log from being
// that of the whole input: bytes behind the last whole record, an input that cannot be read, an output that cannot be written.
#![tactic(auto)]

ghost use Rattle.std.specs.Prelude.{◌<◌, ◌≡◌, length};
ghost use Rattle.own_log.specs.Turn.{LogTurns};

use console::Cgb;
use log_parts::log_part;
use std::io::{Read, Write};
use stream::Buffer;
use stream::argument::has_argument;

// What keeps the log from being that of the whole input, besides a short record at its end.
#[derive(Clone, Copy)]
enum Failure {
    ScriptNotRead,
    LogNotWritten,
}

// One read: the log of the records that are whole then is written, and the rest waits. Output, state and buffers come one by one: each is borrowed
// while the others are. Whether another may follow: not after the input's end.
fn turn<R: Read, W: Write>(
    script: &mut Buffer<R, 65536>,
    output: &mut W,
    state: &mut Cgb,
    out: &mut [u8],
    wram: &mut [u8],
) -> Result<bool, Failure>
    requires { length out.old ≡ 65536 }
    ensures rest { length script.new < 16 }
    ensures logged { LogTurns state.old wram.old script.old out.old state.new script.new wram.new out.new }
{
    let came = script.read().map_err(|_| Failure::ScriptNotRead);
    let logged = log_part::put_log(*state, script.waiting(), out, wram);
    *state = logged.state;
    script.take(logged.taken);
    output
        .write_all(&out[..logged.taken])
        .map_err(|_| Failure::LogNotWritten)?;
    Ok(came? != 0)
}

// Nothing is left to say where standard error cannot be written.
fn say_short(rt: &impl Eprint, bytes: usize) {
    let _ = eprintln!(rt;
        "own_log: the script ends in a short record ({bytes} of 16 bytes), which has no record in the log"
    );
}

// Not Display of `Failure`, an impl for the one line that is printed here.
fn say_failure(rt: &impl Eprint, failure: Failure) {
    let line = match failure {
        Failure::ScriptNotRead => "script could not be read",
        Failure::LogNotWritten => "log could not be written",
    };
    let _ = eprintln!(rt; "own_log: the {line} to its end");
}

// The log of the whole input, and how many bytes of a short record stand at its end.
fn log_input(rt: &HostRuntime) -> Result<usize, Failure> {
    let mut script = Buffer::new(rt.stdin());
    let mut output = rt.stdout();
    let mut out = [0u8; 65536];
    let mut wram = [0u8; 32768];
    let mut state = console::power_on::power_on(false);
    // to the end of the input: a loop has to end, and one over `forever` would need the handle Wait
    for _ in 0..u64::MAX {
        if !turn(&mut script, &mut output, &mut state, &mut out, &mut wram)? {
            break;
        }
    }
    Ok(script.waiting().len())
}

fn main(rt: HostRuntime) {
    if has_argument(&rt, 1) {
        let _ = eprintln!(rt; "usage: own_log <SCRIPT >LOG");
        return;
    }
    match log_input(&rt) {
        Ok(0) => {}
        Ok(bytes) => say_short(&rt, bytes),
        Err(failure) => say_failure(&rt, failure),
    }
}
