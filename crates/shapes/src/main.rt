// Builds and receives a frame of every type, level, key mode and addressing shape on one site, and prints what comes back; then the
// longest frame; then which site files keep their rules. The files come on standard input, as `layout.txt` says, which also has the columns.
// Read requests, rounds, then sites.
#![tactic(auto)]

mod requests;
mod rounds;
mod sites;

ghost use Rattle.std.specs.Prelude.{◌≤◌};

use requests::Shape;
use rounds::round_of;
use site::SITE_LEN;
use sites::{limits, long_files, read_file};
use std::io::{self, Write};

// How many shapes there are.
const SHAPES: usize = 1536;

// Prints each shape, and what comes back.
fn shapes(told: &mut impl Write, site: &[u8; SITE_LEN]) -> io::Result<()> {
    for n in 0..SHAPES {
        let shape = Shape::numbered(n);
        write!(told, "{shape} ")?;
        round_of(told, site, shape, shape.private_len())?;
    }
    Ok(())
}

// A data frame of header 9, level 6, key mode 1 with so many private octets.
fn border(told: &mut impl Write, site: &[u8; SITE_LEN], private: usize) -> io::Result<()>
    requires { private ≤ 128 }
{
    let shape = Shape {
        kind: 1,
        level: 6,
        keymode: 1,
        to: 1,
        from: 1,
    };
    write!(told, "private {private} ")?;
    round_of(told, site, shape, private)
}

fn run(told: &mut impl Write, site: &[u8; SITE_LEN]) -> io::Result<()> {
    told.write_all(b"\n")?;
    shapes(told, site)?;
    border(told, site, 102)?;
    border(told, site, 103)
}

fn main(rt: HostRuntime) -> io::Result<()> {
    let mut input = rt.stdin();
    let mut told = rt.stdout();
    let mut buffer = [0u8; 4096];
    let file = read_file(&mut input, &mut told, &mut buffer)?;
    let mut site = [0u8; SITE_LEN];
    // A file that is refused leaves zeros, which are no site: each round then prints the refusal.
    let _ = load::load(file, &mut site);
    run(&mut told, &site)?;
    limits(&mut input, &mut told)?;
    long_files(&mut told)
}
