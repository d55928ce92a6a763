// The two programs at the system's edge: what is read on standard input, what is written on standard output, and a line on standard
// error where reading or writing fails. No contract can say which bytes are read and written; runs stand in for that (tests/programs.py).
ghost use Rattle.std.specs.Prelude.{◌≡◌};
ghost use Rattle.io.specs.Counts.{IsPrefixLen};

use crate::BUFFER;
use std::io::{Eprint, ErrorKind, Input, Print, Read};

// Runs a program: reads a card, and writes what is put out for it. The exit status is 0 also where that fails, so the line on standard
// error is all that tells.
pub fn run<F: Fn(&[u8], &mut [u8]) -> usize>(
    rt: &(impl Input + Print + Eprint),
    name: &str,
    put_out: F,
)
    requires callable { F.IsAlwaysCallable put_out }
    requires within { (card out : _) (end : _) (after : _) → F.post put_out card out end after → IsPrefixLen end after.now }
{
    let mut card = [0; BUFFER];
    let taken = input(rt, &mut card);
    if taken.whole.is_err() {
        let _ = eprintln!(rt; "{name}: standard input can't be read");
        return;
    }
    let mut out = [0; BUFFER];
    let end = put_out(&card[..taken.bytes], &mut out);
    if rt.write_all(&out[..end]).is_err() {
        let _ = eprintln!(rt; "{name}: standard output can't be written");
    }
}

// What was read of standard input: so many bytes, also where a read failed, and whether it ended there or filled the buffer.
#[derive(Clone, Copy)]
pub struct Taken {
    pub whole: Result<(), ErrorKind>,
    pub bytes: usize,
}

// Reads standard input. The first 24,576 bytes of an input give the answer of the whole (`nightcard-puts-out`,
// `nightplan-puts-out` in proofs/Outcome.antt), so a program reads no more than its buffer holds.
pub fn input(rt: &impl Input, card: &mut [u8]) -> Taken
    ensures { IsPrefixLen result.bytes card.new }
{
    let mut reader = rt.reader();
    let mut bytes = 0;
    // Until nothing comes: std's `read_exact` does not tell how much came before that.
    while bytes < card.len() {
        match reader.read(&mut card[bytes..]) {
            Ok(0) => break,
            Ok(n) => bytes += n,
            Err(e) => {
                let whole = Err(e.kind());
                return Taken { whole, bytes };
            }
        }
    }
    let whole = Ok(());
    Taken { whole, bytes }
}

// Says on standard error what failed, where something did, and hands on whether all was done: for a program that has its standard error at
// hand, as `run` has not.
pub fn said(err: &impl Print, done: bool, name: &[u8], what: &[u8]) -> bool
    ensures { result ≡ done }
{
    if !done {
        let _ = err.write_all(name);
        let _ = err.write_all(what);
    }
    done
}
