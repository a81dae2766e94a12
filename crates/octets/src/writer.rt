// Octets put one behind the other into a lent buffer; no octet behind them changes.
ghost use Rattle.std.specs.Prelude.{◌≡◌, [], ◌∷◌, ◌-◌, ◌≤◌, length, take};

use crate::{Word, copy_in, put};

// A lent buffer, and the place where the next octet goes.
// Each method that puts asks for its own room: the number of octets is another at each, so no field can keep it.
#[derive(Drop)]
pub struct Writer<'a> {
    pub out: &'a mut [u8],
    pub at: usize,
    pub ghost inside: { at ≤ length out.now },
}

impl<'a> Writer<'a> {
    ghost use Rattle.meaning.specs.Octets.{octs};
    ghost use Rattle.octets.specs.Writing.{Room, Put};

    // At the buffer's start.
    pub fn new(out: &'a mut [u8]) -> Writer<'a>
        ensures same_reference { result.out.ghost_name ≡ out.entry.ghost_name }
        ensures octets { result.out.now ≡ out.old }
        ensures at { result.at ≡ 0 }
    {
        Writer { out, at: 0 }
    }

    // How many octets have room.
    pub fn room(&self) -> usize
        ensures { result ≡ length self.now.out.now - self.now.at }
    {
        self.out.len() - self.at
    }

    // What is written.
    pub fn written(&self) -> &[u8]
        ensures { result.now ≡ take self.now.at self.now.out.now }
    {
        &self.out[..self.at]
    }

    // Puts one octet.
    pub fn octet(&mut self, x: u8)
        requires { Room self.old 1 }
        ensures { Put self.old (x ∷ []) self.new }
    {
        self.out[self.at] = x;
        self.at += 1;
    }

    // Puts all of a slice.
    pub fn all(&mut self, s: &[u8])
        requires { Room self.old (length s.now) }
        ensures { Put self.old s.now self.new }
    {
        copy_in(self.out, self.at, s);
        self.at += s.len();
    }

    // Puts a number in whole octets.
    pub fn word<T: Word>(&mut self, v: T)
        requires { Room self.old T.OCTETS }
        ensures { Put self.old (octs T.OCTETS (T.value v)) self.new }
    {
        put(self.out, self.at, v);
        self.at += T::OCTETS;
    }
}
