// A file read in parts through a buffer of fixed size: bytes that are not used yet wait in it, and a read brings more behind them. A file
// is any reader of std: standard input too. std's BufReader has its buffer on the heap.
#![tactic(auto)]

pub mod argument;
mod lent;

ghost use Rattle.std.specs.Prelude.{◌+◌, ◌-◌, ◌<◌, ◌≤◌, ◌≡◌, [], false, length, take, drop, IfOk, MatchResult};

pub use lent::{Filled, Refilled, fewer, fill, flush, refill, to_front};
use std::io;
use std::io::Read;
use std::marker::Model;

// The file, and its bytes that wait, from one place up to another. To a contract it is the list of them.
#[derive(Drop)]
pub struct Buffer<R, const N: usize> {
    input: R,
    bytes: [u8; N],
    from: usize,
    stop: usize,
}

impl<R, const N: usize> Model for Buffer<R, N> {
    ghost use Rattle.std.specs.Prelude.{ℕ, List, ◌-◌, ◌≤◌, take, drop};

    ghost Value = { List ℕ };

    ghost view = { λ b. take (b.stop - b.from) (drop b.from b.bytes) };

    ghost invariant = { λ b. (b.from ≤ b.stop) × (b.stop ≤ N) };
}

impl<R: Read, const N: usize> Buffer<R, N> {
    pub fn new(input: R) -> Self
        ensures { result ≡ [] }
    {
        Buffer {
            input,
            bytes: [0; N],
            from: 0,
            stop: 0,
        }
    }

    pub fn waiting(&self) -> &[u8]
        ensures value { result.now ≡ self.now }
        ensures within { length result.now ≤ N }
    {
        let bytes = &self.bytes[..];
        &bytes[self.from..self.stop]
    }

    // The first n of them are used, or all where there are fewer.
    pub fn take(&mut self, n: usize)
        ensures { self.new ≡ drop n self.old }
    {
        self.from += n.min(self.stop - self.from);
    }

    // One read, behind what waits; where there is no room, none. How many bytes came: with no room none, and none at the file's end.
    pub fn read(&mut self) -> io::Result<usize>
        ensures waiting_kept { take (length self.old) self.new ≡ self.old }
        ensures count { MatchResult result (λ n. length self.new ≡ length self.old + n) (λ _. self.new ≡ self.old) }
    {
        let bytes = &mut self.bytes[..];
        let waiting = to_front(bytes, self.from, self.stop);
        self.from = 0;
        self.stop = waiting;
        if waiting == N {
            return Ok(0);
        }
        let came = self.input.read(&mut bytes[waiting..])?;
        self.stop += came;
        Ok(came)
    }

    // One read, where fewer than `enough` bytes wait. Whether there was no need of one, or it brought some.
    pub fn refill(&mut self, enough: usize) -> io::Result<bool>
        ensures waiting_kept { take (length self.old) self.new ≡ self.old }
        ensures dry { IfOk result (λ more. more ≡ false → (length self.old < enough) × (self.new ≡ self.old)) }
    {
        if self.waiting().len() >= enough {
            return Ok(true);
        }
        Ok(self.read()? != 0)
    }
}
