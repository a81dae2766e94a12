// Reads site files from the input and prints which keep their rules.
ghost use Rattle.std.specs.Prelude.{◌≤◌, length, IfOk};

use reading::read_full;
use std::io::{self, Read, Write};

// Prints whether a file keeps its rules, as loading says.
fn verdict(told: &mut impl Write, file: &[u8]) -> io::Result<()> {
    let mut site = [0u8; site::SITE_LEN];
    match load::load(file, &mut site) {
        Ok(()) => told.write_all(b"holds\n"),
        Err(_) => told.write_all(b"refused\n"),
    }
}

// Reads a file: its title, which is printed, its length and its octets. No octets where the input ends.
pub fn read_file<'a>(
    input: &mut impl Read,
    told: &mut impl Write,
    file: &'a mut [u8],
) -> io::Result<&'a [u8]>
    ensures { IfOk result (λ s. length s.now ≤ length file.old) }
{
    let mut title = [0u8; 24];
    if read_full(input, &mut title)? < title.len() {
        return Ok(&[]);
    }
    told.write_all(&title)?;
    let mut size = [0u8; 2];
    read_full(input, &mut size)?;
    let n = usize::from(u16::from_le_bytes(size)).min(file.len());
    read_full(input, &mut file[..n])?;
    Ok(&file[..n])
}

// Tries the next file of the input; false where there is none, or one of no octets, which ends the list as the end of the input does.
fn next_file(input: &mut impl Read, told: &mut impl Write) -> io::Result<bool> {
    let mut buffer = [0u8; 4096];
    let file = read_file(input, told, &mut buffer)?;
    if file.is_empty() {
        return Ok(false);
    }
    verdict(told, file)?;
    Ok(true)
}

// Tries each file of the input, 100 at most, so that the loop ends whatever the input is.
pub fn limits(input: &mut impl Read, told: &mut impl Write) -> io::Result<()> {
    for _ in 0..100 {
        if !next_file(input, told)? {
            break;
        }
    }
    Ok(())
}

pub fn long_files(told: &mut impl Write) -> io::Result<()> {
    let zeros = [0u8; 100000];
    told.write_all(b"no octets               ")?;
    verdict(told, &zeros[..0])?;
    told.write_all(b"100,000 zeros           ")?;
    verdict(told, &zeros)
}
