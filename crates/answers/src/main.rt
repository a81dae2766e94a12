// Answers a run of cases from standard input through the exported functions, for a comparison with the second implementation, whose
// answers are the file `stdout`. second/src/testkit/answers.rs has the layout of the cases and makes both files.
#![tactic(auto)]

ghost use Rattle.std.specs.Prelude.{◌≤◌, length, IfOk, IfSome};

use reading::read_full;
use std::io::{self, Read, Write};

// How many octets the buffers have for a site, for the parts of a case and for an output.
const SITE_ROOM: usize = 4096;

const PARTS_ROOM: usize = 4096;

const OUT_ROOM: usize = 512;

// What a case asks about the site; all but `Fill` are answered with what they leave.
#[derive(Clone, Copy)]
enum Question {
    Receive,
    Build,
    ReceiveMany,
    Show,
    Fill,
}

// What a case does: lends a site as it stands, loads a file into one, or asks.
#[derive(Clone, Copy)]
enum Kind {
    Lend,
    Load,
    Ask(Question),
}

impl From<u8> for Kind {
    fn from(number: u8) -> Kind {
        match number {
            0 => Kind::Lend,
            1 => Kind::Ask(Question::Receive),
            2 => Kind::Ask(Question::Build),
            3 => Kind::Ask(Question::ReceiveMany),
            5 => Kind::Ask(Question::Fill),
            6 => Kind::Load,
            _ => Kind::Ask(Question::Show),
        }
    }
}

// One case: its kind, the length of the site or output lent, and how many octets its three parts have.
#[derive(Clone, Copy)]
struct Item {
    kind: Kind,
    room: u16,
    first: u16,
    second: u16,
    third: u16,
}

// The parts of a case.
#[derive(Clone, Copy)]
struct Parts<'a> {
    first: &'a [u8],
    second: &'a [u8],
    third: &'a [u8],
}

impl<'a> Parts<'a> {
    // The second part lies between the two places.
    fn cut(octets: &'a [u8], first: usize, second: usize) -> Parts<'a>
        requires { (first ≤ second) × (second ≤ length octets.now) }
    {
        Parts {
            first: &octets[..first],
            second: &octets[first..second],
            third: &octets[second..],
        }
    }
}

// The next nine octets.
fn read_item(input: &mut impl Read) -> io::Result<Option<Item>> {
    let mut head = [0u8; 9];
    if read_full(input, &mut head)? < head.len() {
        return Ok(None);
    }
    Ok(Some(Item {
        kind: Kind::from(head[0]),
        room: u16::from_le_bytes([head[1], head[2]]),
        first: u16::from_le_bytes([head[3], head[4]]),
        second: u16::from_le_bytes([head[5], head[6]]),
        third: u16::from_le_bytes([head[7], head[8]]),
    }))
}

// The answer to a frame, the output, and the place of its open payload.
fn tell_received(
    told: &mut impl Write,
    site: &mut [u8],
    frame: &[u8],
    out: &mut [u8],
) -> io::Result<()> {
    let mut answer = [0u8; 48];
    export::wirdhalef_receive(site, frame, out, &mut answer);
    told.write_all(&answer)?;
    told.write_all(out)?;
    told.write_all(&export::wirdhalef_open_payload(frame).to_le_bytes())
}

// The answer to a request, and the output.
fn tell_built(
    told: &mut impl Write,
    site: &mut [u8],
    parts: Parts,
    out: &mut [u8],
) -> io::Result<()> {
    let number = export::wirdhalef_build(site, parts.first, parts.second, parts.third, out);
    told.write_all(&number.to_le_bytes())?;
    told.write_all(out)
}

// How many frames were accepted, and the output.
fn tell_many(
    told: &mut impl Write,
    site: &mut [u8],
    frames: &[u8],
    out: &mut [u8],
) -> io::Result<()> {
    let number = export::wirdhalef_receive_many(site, frames, out);
    told.write_all(&number.to_le_bytes())?;
    told.write_all(out)
}

// Puts octets in front of the output, where they fit; nothing is told.
fn fill(out: &mut [u8], octets: &[u8]) {
    if octets.len() <= out.len() {
        out[..octets.len()].copy_from_slice(octets);
    }
}

// Answers one question about a site.
fn answer(
    told: &mut impl Write,
    question: Question,
    parts: Parts,
    site: &mut [u8],
    out: &mut [u8],
) -> io::Result<()> {
    match question {
        Question::Receive => tell_received(told, site, parts.first, out),
        Question::Build => tell_built(told, site, parts, out),
        Question::ReceiveMany => tell_many(told, site, parts.first, out),
        Question::Show => told.write_all(site),
        Question::Fill => {
            fill(out, parts.first);
            Ok(())
        }
    }
}

// Loads a file into the first octets of the site's buffer, as they stand, and tells the status in one octet; gives their number, or none
// where the buffer has fewer.
fn load_into(
    told: &mut impl Write,
    file: &[u8],
    site: &mut [u8; SITE_ROOM],
    room: usize,
) -> io::Result<Option<usize>>
    ensures { IfOk result (λ o. IfSome o (λ n. n ≤ SITE_ROOM)) }
{
    if SITE_ROOM < room {
        return Ok(None);
    }
    told.write_all(&[export::wirdhalef_load(file, &mut site[..room])])?;
    Ok(Some(room))
}

// Reads the parts of a case and answers it; gives the length of the site afterwards, or none where the input ends or asks too much.
// The length stands beside the site's buffer: a struct that keeps its bound by a ghost field gets no proof where its buffer is lent as `&mut`.
fn turn(
    input: &mut impl Read,
    told: &mut impl Write,
    item: Item,
    site: &mut [u8; SITE_ROOM],
    len: usize,
    parts: &mut [u8; PARTS_ROOM],
    out: &mut [u8; OUT_ROOM],
) -> io::Result<Option<usize>>
    requires { len ≤ SITE_ROOM }
    ensures { IfOk result (λ o. IfSome o (λ n. n ≤ SITE_ROOM)) }
{
    let first = usize::from(item.first);
    let second = first + usize::from(item.second);
    let third = second + usize::from(item.third);
    let room = usize::from(item.room);
    if PARTS_ROOM < third || read_full(input, &mut parts[..third])? < third {
        return Ok(None);
    }
    let octets = &parts[..third];
    match item.kind {
        Kind::Load => load_into(told, &octets[..first], site, room),
        Kind::Lend => {
            site[..third].copy_from_slice(octets);
            told.write_all(&[export::wirdhalef_site_holds(octets)])?;
            Ok(Some(third))
        }
        Kind::Ask(question) => {
            if OUT_ROOM < room {
                return Ok(None);
            }
            let parts = Parts::cut(octets, first, second);
            answer(told, question, parts, &mut site[..len], &mut out[..room])?;
            Ok(Some(len))
        }
    }
}

fn main(rt: HostRuntime) -> io::Result<()> {
    let mut input = rt.stdin();
    let mut told = rt.stdout();
    let mut site = [0u8; SITE_ROOM];
    let mut parts = [0u8; PARTS_ROOM];
    let mut out = [0u8; OUT_ROOM];
    let mut len = 0;
    // A million cases at most, so that the loop ends whatever the input is.
    for _ in 0..1_000_000 {
        let Some(item) = read_item(&mut input)? else {
            break;
        };
        let Some(then) = turn(
            &mut input, &mut told, item, &mut site, len, &mut parts, &mut out,
        )?
        else {
            break;
        };
        len = then;
    }
    Ok(())
}
