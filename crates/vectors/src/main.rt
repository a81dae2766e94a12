// Runs published vectors of AES-128 and CCM* through the proved cipher. They come on standard input, in records of 208 octets that
// `layout.txt` describes; each gives a line, its title and `ok` or `differs`, and the last line has the counts.
#![tactic(auto)]

mod checks;
mod records;

use checks::record_holds;
use reading::read_full;
use records::Record;
use std::io::{self, Read, Write};

// Reads a record, tries it and prints its line: whether it holds, or none at the end of the input.
fn next(input: &mut impl Read, out: &mut impl Write) -> io::Result<Option<bool>> {
    let mut octets = [0; 208];
    if read_full(input, &mut octets)? < 208 {
        return Ok(None);
    }
    let record = Record { octets };
    out.write_all(record.title())?;
    let holds = record_holds(&record);
    out.write_all(if holds { b"ok\n" } else { b"differs\n" })?;
    Ok(Some(holds))
}

fn main(rt: HostRuntime) -> io::Result<()> {
    let mut input = rt.stdin();
    let mut out = rt.stdout();
    let mut held: u64 = 0;
    let mut differed: u64 = 0;
    // At most 10,000 records, far more than are published: so an endless input ends too, and no count overflows.
    for _ in 0..10000u64 {
        match next(&mut input, &mut out)? {
            Some(true) => held += 1,
            Some(false) => differed += 1,
            None => break,
        }
    }
    writeln!(out, "{held} ok, {differed} differ")
}
