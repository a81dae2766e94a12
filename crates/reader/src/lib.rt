// A reader of a frame's header: it holds the frame and a place in it, and is thin over the covered cursor function.
// Octets past the end read as 0, so a place past the end is as good as any other. No function changes what it is lent.
// Clients call `read_fields`, whose parameters are plain, and cite specs/Fields.antt.
#![tactic(auto)]

ghost use Rattle.std.specs.Prelude.{◌≡◌, ◌<◌, ◌%◌, length, eqb};
ghost use Rattle.meaning.specs.Octets.{pick};
ghost use Rattle.reader.specs.Fields.{number_at, field_at, reader_at, pan_len, widths_of, raw_of, address_of, fields_of};

use meaning::Address;
use modes::address_len;

// A field that was read: its number, and the place after it.
#[derive(Clone, Copy)]
pub struct Field {
    pub value: u64,
    pub next: usize,
}

// The number in n octets at a place, for n of 1, 2 and 8; 0 for another n.
#[tactic(auto, unfolding(crate::specs::Fields::number_at, meaning::specs::Octets::le_at))]
fn number_at(src: &[u8], at: usize, n: usize) -> u64
    requires { at < length src.now }
    ensures { result ≡ number_at src.now at n }
{
    match n {
        1 => octets::octet(src, at) as u64,
        2 => octets::number::<u16>(src, at) as u64,
        8 => octets::number::<u64>(src, at),
        _ => 0,
    }
}

// The field of n octets at a place; the place after it is the end at most.
#[tactic(auto, using(crate::proofs::Laws::number_past), unfolding(crate::specs::Fields::field_at, crate::specs::Fields::place_after))]
pub fn field_at(src: &[u8], at: usize, n: usize) -> Field
    ensures { result ≡ field_at src.now at n }
{
    if src.len() <= at {
        return Field { value: 0, next: at };
    }
    let next = at + n.min(src.len() - at);
    Field {
        value: number_at(src, at, n),
        next,
    }
}

// A place in a frame. Document 01 names this form.
#[derive(Clone, Copy)]
pub struct Reader<'a> {
    pub src: &'a [u8],
    pub at: usize,
}

impl<'a> Reader<'a> {
    // At the sequence number.
    pub fn new(src: &'a [u8]) -> Reader<'a>
        ensures { result ≡ reader_at src.entry 2 }
    {
        Reader { src, at: 2 }
    }

    // The field of n octets at the reader's place.
    pub fn field(self, n: usize) -> Field
        ensures { result ≡ field_at self.entry.src.now self.entry.at n }
    {
        field_at(self.src, self.at, n)
    }

    // The reader after a field that it read.
    pub fn after(self, f: Field) -> Reader<'a>
        ensures { result ≡ reader_at self.entry.src f.next }
    {
        Reader {
            src: self.src,
            at: f.next,
        }
    }
}

// How many octets each address field has.
#[derive(Clone, Copy)]
pub struct Widths {
    pub destinationpan: usize,
    pub destination: usize,
    pub sourcepan: usize,
    pub source: usize,
}

// The fields as they stand one after the other; `pan` is the first two octets after the sequence number, whosever they are.
#[derive(Clone, Copy)]
pub struct Raw {
    pub sequence: Field,
    pub pan: Field,
    pub destinationpan: Field,
    pub destination: Field,
    pub sourcepan: Field,
    pub source: Field,
}

// Sequence number, destination PAN and address, source PAN and address, read one after the other.
#[tactic(auto, unfolding(crate::specs::Fields::raw_of))]
pub fn read_raw(head: &[u8], w: Widths) -> Raw
    ensures { result ≡ raw_of head.now w }
{
    let r = Reader::new(head);
    let sequence = r.field(1);
    let r = r.after(sequence);
    let pan = r.field(2);
    let destinationpan = r.field(w.destinationpan);
    let r = r.after(destinationpan);
    let destination = r.field(w.destination);
    let r = r.after(destination);
    let sourcepan = r.field(w.sourcepan);
    let r = r.after(sourcepan);
    let source = r.field(w.source);
    Raw {
        sequence,
        pan,
        destinationpan,
        destination,
        sourcepan,
        source,
    }
}

// The octets of a PAN, by its address's mode; compression drops it.
#[tactic(auto, unfolding(crate::specs::Fields::pan_len))]
fn pan_len(mode: u8, compression: u8) -> usize
    ensures { result ≡ pan_len mode compression }
{
    if mode == 0 || compression == 1 { 0 } else { 2 }
}

// The octets of each address field, by the two modes; compression drops the source PAN.
#[tactic(auto, unfolding(crate::specs::Fields::widths_of))]
fn widths_of(destination: u8, source: u8, compression: u8) -> Widths
    ensures { result ≡ widths_of destination source compression }
{
    Widths {
        destinationpan: pan_len(destination, 0),
        destination: address_len(destination),
        sourcepan: pan_len(source, compression),
        source: address_len(source),
    }
}

// The address of a mode; all zero in mode 0.
#[tactic(auto, unfolding(crate::specs::Fields::address_of))]
fn address_of(mode: u8, pan: u64, number: u64) -> Address
    ensures { result ≡ address_of mode pan number }
{
    if mode == 0 {
        return Address::default();
    }
    Address {
        mode,
        pan: (pan % 65536) as u16,
        address: number,
    }
}

// The source PAN: under compression the first that stands.
fn origin(compression: u8, pan: Field, sourcepan: Field) -> u64
    ensures { result ≡ pick (eqb compression 1) pan.value sourcepan.value }
{
    if compression == 1 {
        pan.value
    } else {
        sourcepan.value
    }
}

// Sequence number and addresses.
#[derive(Clone, Copy)]
pub struct Fields {
    pub sequence: u8,
    pub destination: Address,
    pub source: Address,
}

// The fields of a header, by its two modes and its compression.
pub fn read_fields(head: &[u8], destination: u8, source: u8, compression: u8) -> Fields
    ensures { result ≡ fields_of head.now destination source compression }
{
    let raw = read_raw(head, widths_of(destination, source, compression));
    Fields {
        sequence: (raw.sequence.value % 256) as u8,
        destination: address_of(destination, raw.pan.value, raw.destination.value),
        source: address_of(
            source,
            origin(compression, raw.pan, raw.sourcepan),
            raw.source.value,
        ),
    }
}
