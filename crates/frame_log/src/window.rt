// The octets of the input at hand: a part of a lent buffer that more are read into.
ghost use Rattle.std.specs.Prelude.{◌≡◌, ◌+◌, ◌-◌, ◌≤◌, length, take, drop, IfOk, OnErr};
ghost use Rattle.std.specs.Io.KnownBytes.{Consumes};
ghost use Rattle.reading.specs.Full.{HoldsEnd};

use reading::read_full;
use std::io;
use std::io::Read;

// A lent buffer, and where the octets at hand begin and end in it.
#[derive(Drop)]
pub struct Window<'a> {
    pub buf: &'a mut [u8],
    pub at: usize,
    pub have: usize,
    pub ghost places: { (at ≤ have) × (have ≤ length buf.now) },
}

impl<'a> Window<'a> {
    ghost use Rattle.frame_log.specs.Hand.{hand, held, Fed};

    // The octets at a buffer's start.
    pub fn new(buf: &'a mut [u8], have: usize) -> Window<'a>
        requires { have ≤ length buf.old }
        ensures same_reference { result.buf.ghost_name ≡ buf.entry.ghost_name }
        ensures octets { result.buf.now ≡ buf.old }
        ensures places { (result.at ≡ 0) × (result.have ≡ have) }
        ensures hand { held result ≡ take have buf.old }
    {
        Window { buf, at: 0, have }
    }

    // The octets at hand.
    pub fn hand(&self) -> &[u8]
        ensures { result.now ≡ held self.now }
    {
        &self.buf[self.at..self.have]
    }

    // Drops the first octets at hand.
    pub fn skip(&mut self, n: usize)
        requires { n ≤ length (held self.old) }
        ensures same_reference { self.new.buf.ghost_name ≡ self.old.buf.ghost_name }
        ensures octets { self.new.buf.now ≡ self.old.buf.now }
        ensures have { self.new.have ≡ self.old.have }
        ensures hand { held self.new ≡ drop n (held self.old) }
    {
        self.at += n;
    }

    // Moves the octets at hand to the front, and reads more behind them, until the buffer is full or the input ends.
    // After an error the octets that were at hand stand at the front.
    fn refill<R: Read>(&mut self, input: &mut R) -> io::Result<()>
        ensures same_reference { self.new.buf.ghost_name ≡ self.old.buf.ghost_name }
        ensures fed { IfOk result (λ _. Fed self.old self.new) }
        ensures octets { IfOk result (λ _. Consumes (R.remaining input.old) (R.remaining input.new) (drop (length (held self.old)) (held self.new))) }
        ensures end { IfOk result (λ _. HoldsEnd self.new.buf.now self.new.have (R.remaining input.new)) }
        ensures front { self.new.at ≡ 0 }
        ensures long { length self.new.buf.now ≡ length self.old.buf.now }
        ensures err { OnErr result (held self.new ≡ held self.old) }
    {
        self.buf.copy_within(self.at..self.have, 0);
        self.have -= self.at;
        self.at = 0;
        let got = read_full(input, &mut self.buf[self.have..])?;
        self.have += got;
        Ok(())
    }

    // A frame's octets at hand, or all that are left: a buffer that is not full holds the end of the input, if it did so before, and one
    // that is full has a frame's at hand. After an error the octets that were at hand stand at the front.
    pub fn fill<R: Read>(&mut self, input: &mut R) -> io::Result<()>
        ensures same_reference { self.new.buf.ghost_name ≡ self.old.buf.ghost_name }
        ensures fed { IfOk result (λ _. Fed self.old self.new) }
        ensures octets { IfOk result (λ _. Consumes (R.remaining input.old) (R.remaining input.new) (drop (length (held self.old)) (held self.new))) }
        ensures end { HoldsEnd self.old.buf.now self.old.have (R.remaining input.old) → IfOk result (λ _. HoldsEnd self.new.buf.now self.new.have (R.remaining input.new)) }
        ensures long { length self.new.buf.now ≡ length self.old.buf.now }
        ensures enough { IfOk result (λ _. 256 ≤ length self.new.buf.now → length self.new.buf.now ≤ self.new.have → 256 ≤ length (held self.new)) }
        ensures err { OnErr result (held self.new ≡ held self.old) }
        ensures front { OnErr result (self.new.at ≡ 0) }
    {
        if self.have < self.buf.len() || 256 <= self.have - self.at {
            return Ok(());
        }
        self.refill(input)
    }
}
