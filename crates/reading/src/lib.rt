// Reading from an input until a buffer is full: the loop that all programs share.
#![tactic(auto)]

ghost use Rattle.std.specs.Prelude.{◌≤◌, length, take, IfOk};
ghost use Rattle.std.specs.Io.KnownBytes.{Consumes};
ghost use Rattle.reading.specs.Full.{HoldsEnd};

use std::io;
use std::io::Read;

// Reads until the buffer is full or the input ends, and returns how many octets it put at the buffer's start.
// By `read` alone: where the input ends early `read_exact` does not say what it read, and `read_to_end` wants a heap.
// By `while`: what is done grows by what each `read` gives.
pub fn read_full<R: Read>(input: &mut R, buf: &mut [u8]) -> io::Result<usize>
    ensures fit { IfOk result (λ n. n ≤ length buf.new) }
    ensures octets { IfOk result (λ n. Consumes (R.remaining input.old) (R.remaining input.new) (take n buf.new)) }
    ensures end { IfOk result (λ n. HoldsEnd buf.new n (R.remaining input.new)) }
{
    let mut done: usize = 0;
    while done < buf.len() {
        let n = input.read(&mut buf[done..])?;
        if n == 0 {
            break;
        }
        done += n;
    }
    Ok(done)
}
