// Builds a frame, receives it on the same site, and prints what comes back.
ghost use Rattle.std.specs.Prelude.{◌≤◌};

use crate::requests::{Shape, header_of, private_payload};
use meaning::{Accepted, Refusal, Request};
use site::SITE_LEN;
use std::io::{self, Write};

// What a frame is built from.
#[derive(Clone, Copy)]
struct Asked<'a> {
    request: Request,
    opens: &'a [u8],
    private: &'a [u8],
}

// Whether two things are the same, in a word.
fn same_or_not(same: bool) -> &'static str {
    if same { "same" } else { "other" }
}

// Prints what came back from receiving; a refusal tells zeros behind its number.
fn report(
    told: &mut impl Write,
    asked: Asked,
    frame: &[u8],
    out: &[u8],
    answer: Result<Accepted, Refusal>,
) -> io::Result<()> {
    match answer {
        Ok(a) => {
            write!(
                told,
                "0 {} {} {} {} ",
                a.level, a.keymode, a.device, a.private
            )?;
            let header = a.header == header_of(asked.request);
            let opens = a.len == asked.opens.len()
                && octets::same_from(asked.opens, frame, a.start.min(127), a.len.min(127));
            let private = a.private == asked.private.len() && out.starts_with(asked.private);
            tell_same(told, header, opens, private)
        }
        Err(refusal) => {
            write!(told, "{} 0 0 0 0 ", u8::from(refusal))?;
            tell_same(
                told,
                false,
                asked.opens.is_empty(),
                asked.private.is_empty(),
            )
        }
    }
}

// Prints whether header, open payload and private payload came back the same.
fn tell_same(told: &mut impl Write, header: bool, opens: bool, private: bool) -> io::Result<()> {
    write!(
        told,
        "{} {} {} ",
        same_or_not(header),
        same_or_not(opens),
        same_or_not(private)
    )
}

// Prints the FCS of a frame.
fn sum(told: &mut impl Write, frame: &[u8]) -> io::Result<()> {
    if let [.., low, high] = frame {
        write!(told, "{:04x} ", u16::from_le_bytes([*low, *high]))?;
    }
    Ok(())
}

// Receives a frame and prints what comes back.
fn back(told: &mut impl Write, site: &mut [u8], asked: Asked, frame: &[u8]) -> io::Result<()> {
    let mut out = [0u8; 127];
    let answer = receiver::receive(site, frame, &mut out);
    report(told, asked, frame, &out, answer)
}

// Builds what is asked for and, where that succeeds, receives it on the same site.
fn round(told: &mut impl Write, site: &mut [u8], asked: Asked) -> io::Result<()> {
    let mut buffer = [0u8; 127];
    match builder::build(site, asked.request, asked.opens, asked.private, &mut buffer) {
        Ok(n) => {
            write!(told, "0 {n} ")?;
            let frame = &buffer[..n.min(127)];
            sum(told, frame)?;
            back(told, site, asked, frame)?;
        }
        Err(refusal) => write!(told, "{} 0 ", u8::from(refusal))?,
    }
    told.write_all(b"\n")
}

// The round of a shape with so many private octets, on a copy of the site.
pub fn round_of(
    told: &mut impl Write,
    site: &[u8; SITE_LEN],
    shape: Shape,
    private: usize,
) -> io::Result<()>
    requires { private ≤ 128 }
{
    let mut own = *site;
    let text = private_payload();
    let asked = Asked {
        request: shape.request(),
        opens: shape.opens(),
        private: &text[..private],
    };
    round(told, &mut own, asked)
}
