// The request of a shape, by the site of the shapes, its payloads, and the header that it asks for.
ghost use Rattle.std.specs.Prelude.{◌≤◌, length};

use meaning::{Address, Header, Request};
use std::{array, fmt};

const PAN: u16 = 0x4321;

const SHORT: u64 = 5;

const EXTENDED: u64 = 0xacde_4800_0000_0001;

// A key source, of which mode 2 uses the first four octets.
const KEY_SOURCE: [u8; 8] = [11, 12, 13, 14, 15, 16, 17, 18];

// The numbers of a frame type, a level, a key mode, a destination and a source, as `layout.txt` gives them.
// The five stay numbers and no enums, since they are printed as such and a request holds the first three so.
#[derive(Clone, Copy)]
pub struct Shape {
    pub kind: u8,
    pub level: u8,
    pub keymode: u8,
    pub to: u8,
    pub from: u8,
}

impl Shape {
    // The shape n of all.
    pub fn numbered(n: usize) -> Shape {
        Shape {
            kind: (n / 384 % 4) as u8,
            level: (n / 48 % 8) as u8,
            keymode: (n / 12 % 4) as u8,
            to: (n / 3 % 4) as u8,
            from: (n % 3) as u8,
        }
    }

    pub fn request(self) -> Request {
        Request {
            kind: self.kind,
            version: u8::from(0 < self.level),
            pending: self.kind == 2,
            request: self.kind == 3,
            sequence: 0x84,
            destination: destination_of(self.to),
            srcmode: source_mode_of(self.from),
            level: self.level,
            keymode: self.keymode,
            keysource: KEY_SOURCE,
            keyindex: self.keymode,
        }
    }

    // The open payload of its type.
    pub fn opens(self) -> &'static [u8]
        ensures { length result.now ≤ 4 }
    {
        match self.kind {
            0 => &[0x55, 0xcf, 0, 0],
            3 => &[7],
            _ => &[],
        }
    }

    // How many private octets it has.
    pub fn private_len(self) -> usize
        ensures { result ≤ 32 }
    {
        if self.kind == 2 {
            0
        } else {
            usize::from(self.level % 8) * 3 + 2
        }
    }
}

impl fmt::Display for Shape {
    fn fmt<W: fmt::Write>(&self, f: &mut fmt::Formatter<W>) -> fmt::Result {
        write!(
            f,
            "{} {} {} {} {}",
            self.kind, self.level, self.keymode, self.to, self.from
        )
    }
}

// An address of the site itself; mode 0 has none.
fn own_address(mode: u8) -> Address {
    match mode {
        2 => Address {
            mode,
            pan: PAN,
            address: SHORT,
        },
        3 => Address {
            mode,
            pan: PAN,
            address: EXTENDED,
        },
        _ => Address::default(),
    }
}

// The destination of a shape: none, own short, own extended, or everybody.
fn destination_of(shape: u8) -> Address {
    match shape {
        1 => own_address(2),
        2 => own_address(3),
        3 => Address {
            mode: 2,
            pan: 0xffff,
            address: 0xffff,
        },
        _ => own_address(0),
    }
}

fn source_mode_of(shape: u8) -> u8 {
    match shape {
        1 => 2,
        2 => 3,
        _ => 0,
    }
}

// The private payload stands in front.
pub fn private_payload() -> [u8; 128] {
    array::from_fn(|i| i as u8)
}

// The header that a request asks for. The source PAN is left out where both addresses stand and the PANs agree.
pub fn header_of(q: Request) -> Header {
    let source = own_address(q.srcmode);
    let to = q.destination;
    Header {
        kind: q.kind,
        security: u8::from(0 < q.level),
        pending: u8::from(q.pending),
        request: u8::from(q.request),
        compression: u8::from(to.mode != 0 && source.mode != 0 && to.pan == source.pan),
        version: q.version,
        sequence: q.sequence,
        destination: to,
        source,
    }
}
