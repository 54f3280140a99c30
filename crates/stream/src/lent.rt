// A buffer that its caller lends, of any length, with the places of what waits in it: `Buffer` has one of its own, and keeps the places.
// What stands past the lent buffer's end does not wait, and without room nothing is read.
ghost use Rattle.std.specs.Prelude.{◌-◌, ◌<◌, ◌≤◌, min, max, false, cond, ◌≡◌, length, take, drop};

use std::io::{Read, Write};

// How many bytes stand in the buffer after a read, and whether the file could not be read. If no more than waited, and the buffer
// is not full, the file ended or could not be read. Two parts that always stand, so no Result.
#[derive(Clone, Copy)]
pub struct Filled {
    pub bytes: usize,
    pub failed: bool,
}

// One read, behind the bytes that wait at the front; where there is no room, none.
pub fn fill<R: Read>(input: &mut R, buf: &mut [u8], waiting: usize) -> Filled
    ensures within { (waiting ≤ result.bytes) × (result.bytes ≤ max waiting (length buf.new)) }
    ensures waiting_kept { take waiting buf.new ≡ take waiting buf.old }
{
    if waiting >= buf.len() {
        return Filled {
            bytes: waiting,
            failed: false,
        };
    }
    match input.read(&mut buf[waiting..]) {
        Ok(came) => Filled {
            bytes: waiting + came,
            failed: false,
        },
        Err(_) => Filled {
            bytes: waiting,
            failed: true,
        },
    }
}

// How many places there are from one place up to another, among so many.
fn between(from: usize, end: usize, places: usize) -> usize
    ensures { result ≡ min end places - from }
{
    end.min(places).saturating_sub(from)
}

// The bytes from one place up to another, as far as there are any, moved to the front: how many they are.
pub fn to_front(buf: &mut [u8], from: usize, end: usize) -> usize
    ensures count { result ≡ min end (length buf.old) - from }
    ensures moved { take result buf.new ≡ take result (drop from buf.old) }
{
    let n = between(from, end, buf.len());
    if n > 0 {
        buf.copy_within(from..from + n, 0);
    }
    n
}

// Where bytes wait in a buffer after a refill; whether a read was needed and brought nothing, so that the file has ended or cannot be
// read; and whether it cannot.
#[derive(Clone, Copy)]
pub struct Refilled {
    pub from: usize,
    pub stop: usize,
    pub dry: bool,
    pub failed: bool,
}

// Where fewer than `enough` bytes wait, from one place up to another, they go to the front, and one read brings more behind them.
pub fn refill<R: Read>(
    input: &mut R,
    buf: &mut [u8],
    from: usize,
    stop: usize,
    enough: usize,
) -> Refilled
    ensures within { (result.from ≤ result.stop) × (result.stop ≤ length buf.new) }
    ensures none_lost { min stop (length buf.old) - from ≤ result.stop - result.from }
    ensures waiting_kept { take (min stop (length buf.old) - from) (drop result.from buf.new) ≡ take (min stop (length buf.old) - from) (drop from buf.old) }
{
    let waiting = between(from, stop, buf.len());
    if (waiting >= enough) & (from <= buf.len()) {
        return Refilled {
            from,
            stop: from + waiting,
            dry: false,
            failed: false,
        };
    }
    let front = to_front(buf, from, stop);
    let filled = fill(input, buf, front);
    Refilled {
        from: 0,
        stop: filled.bytes,
        dry: filled.bytes == front,
        failed: filled.failed,
    }
}

// How many reads may still come after this one, none where the last brought nothing: for a loop that counts them down.
pub fn fewer(turns: u64, more: bool) -> u64
    ensures left { result ≡ cond more (turns - 1) 0 }
    ensures at_least_one_less { result ≤ turns - 1 }
{
    if more { turns.saturating_sub(1) } else { 0 }
}

// The front of a buffer written out: whether all of it was.
pub fn flush<W: Write>(output: &mut W, out: &[u8], n: usize) -> bool
    ensures { length out.now < n → result ≡ false }
{
    if n <= out.len() {
        return output.write_all(&out[..n]).is_ok();
    }
    false
}
