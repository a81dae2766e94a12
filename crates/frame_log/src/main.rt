// The log program: reads a site file and frames from standard input, loads the file, and prints a line for each frame.
// `printed` of the lines' specs/Log.antt says all that it prints, and `print_log` promises it of a reader and a writer whose octets
// are known. Reading and writing go by 65,536 octets; between a read and a write stands one call of `batch`, whose promise fixes
// every octet that is written.
#![tactic(auto)]

mod frames;
mod opening;
mod window;

ghost use Rattle.std.specs.Prelude.{◌≡◌, ◌++◌, ◌+◌, ◌≤◌, length, OnOk};
ghost use Rattle.lines.specs.Log.{printed_from, printed};
ghost use Rattle.frame_log.specs.Buffers.{kept};
ghost use Rattle.frame_log.specs.Hand.{held};
ghost use Rattle.frame_log.specs.Whole.{Prints};
ghost use Rattle.reading.specs.Full.{HoldsEnd};

use frames::{Gate, finish};
use octets::Writer;
use opening::{Fault, beginning, open_site, site_in};
use reading::read_full;
use std::io;
use std::io::{Read, Write};
use window::Window;

// How many octets are read at once, and how many are printed at most.
const BUFFER: usize = 65536;

// Prints the lines of the frames after the site file, to the end of the input.
// The frames are those at hand in a buffer that has room for one, and those left to be read.
// A `loop`, since it ends within a turn, where a batch takes nothing.
fn run<R: Read, W: Write>(
    input: &mut R,
    output: &mut W,
    gate: &mut Gate,
    window: &mut Window,
    text: &mut [u8],
) -> io::Result<()>
    requires { 80 ≤ length text.old }
    ensures { HoldsEnd window.old.buf.now window.old.have (R.remaining input.old) → 256 ≤ length window.old.buf.now
        → OnOk result (Prints (λ l. printed_from 1 (kept gate.old.site) gate.old.out (held window.old ++ l)) (2 + length (held window.old))
        (R.remaining input.old) (W.contents output.old) (W.contents output.new)) }
{
    let mut number: u64 = 1;
    loop {
        window.fill(input)?;
        let mut lines = Writer::new(text);
        let b = gate.batch(number, window.hand(), &mut lines);
        output.write_all(lines.written())?;
        if b.taken == 0 {
            let mut ending = Writer::new(text);
            finish(window.hand(), &mut ending);
            return output.write_all(ending.written());
        }
        window.skip(b.taken);
        number = b.number;
    }
}

// Prints the heading and what follows it, for an input whose first octets are at hand.
fn start<R: Read, W: Write>(
    input: &mut R,
    output: &mut W,
    window: &mut Window,
    text: &mut [u8],
) -> io::Result<()>
    requires { (window.old.at ≡ 0) × (80 ≤ length text.old) }
    ensures { HoldsEnd window.old.buf.now window.old.have (R.remaining input.old) → 4096 ≤ length window.old.buf.now
        → OnOk result (Prints (λ l. printed (held window.old ++ l)) (length (held window.old))
        (R.remaining input.old) (W.contents output.old) (W.contents output.new)) }
{
    let mut head = Writer::new(text);
    lines::heading(&mut head);
    match beginning(window.hand()) {
        Err(Fault::Cut) => {
            lines::cut(&mut head);
            output.write_all(head.written())
        }
        Err(Fault::Long) => {
            lines::site(&mut head);
            output.write_all(head.written())
        }
        Ok(n) => {
            output.write_all(head.written())?;
            let mut octets = [0u8; site::SITE_LEN];
            let ok = open_site(&window.hand()[2..2 + n], &mut octets);
            let mut gate = Gate::new(site_in(&mut octets, ok));
            window.skip(2 + n);
            run(input, output, &mut gate, window, text)
        }
    }
}

// Prints the log of an input to its end. Where its octets are known, and there are fewer than 2^64, the writer gets `printed` of them.
fn print_log<R: Read, W: Write>(input: &mut R, output: &mut W) -> io::Result<()>
    ensures { OnOk result (Prints printed 0 (R.remaining input.old) (W.contents output.old) (W.contents output.new)) }
{
    let mut buf = [0u8; BUFFER];
    let mut text = [0u8; BUFFER];
    let have = read_full(input, &mut buf)?;
    start(input, output, &mut Window::new(&mut buf, have), &mut text)
}

fn main(rt: HostRuntime) -> io::Result<()> {
    print_log(&mut rt.stdin(), &mut rt.stdout())
}
