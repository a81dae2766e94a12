// Keys: the lookup record that matches, the key it names, and a usage record of that key.
ghost use Rattle.std.specs.Prelude.{◌≡◌, ◌&&◌, ◌++◌, ◌+◌, ◌*◌, ◌/◌, ◌≤◌, ◌<◌, length, get_or, eqb};
ghost use Rattle.meaning.specs.Octets.{octs};
ghost use Rattle.meaning.specs.Records.{records};
ghost use Rattle.meaning.specs.Steps.{lookup_row, key_of, usage_row};
ghost use Rattle.search.specs.Rows.{key_row_by, implicit_row};

use crate::levels::fits_at;
use meaning::Address;
use records::{LOOKUP_LEN, USAGE_LEN};

// The lookup record that starts at `from` has the mode, and the octet `lead` at its place `at`.
fn leads(lookups: &[u8], from: usize, mode: u8, at: usize, lead: u8) -> bool
    requires { (from + 2 ≤ length lookups.now) × (from + at < length lookups.now) }
    ensures { result ≡ (eqb (get_or lookups.now (from + 1) 0) mode && eqb (get_or lookups.now (from + at) 0) lead) }
{
    lookups[from + 1] == mode && lookups[from + at] == lead
}

// The first lookup record of the mode with the octet `lead` at its place `at`, and after it all octets wanted. Every key mode is such a search.
pub fn lookup_row(lookups: &[u8], mode: u8, at: usize, lead: u8, wanted: &[u8]) -> Option<usize>
    requires { at + 1 + length wanted.now ≤ 22 }
    ensures { result ≡ lookup_row lookups.now mode at lead wanted.now }
{
    // The counters stay, since document 01 names this form: a `for` yields no number by `break`, and the number is to come from inside the comparison.
    let n = lookups.len() / LOOKUP_LEN;
    let m = wanted.len();
    let mut i: usize = 0;
    let number = 'records: loop {
        if n <= i {
            return None;
        }
        let from = LOOKUP_LEN * i;
        if leads(lookups, from, mode, at, lead) {
            let mut j: usize = 0;
            loop {
                if m <= j {
                    break 'records i;
                }
                if lookups[from + at + 1 + j] != wanted[j] {
                    break;
                }
                j += 1;
            }
        }
        i += 1;
    };
    Some(number)
}

// PAN and address of a peer, the address as if it were extended.
fn peer_octets(p: Address) -> [u8; 10]
    ensures { result ≡ octs 2 p.pan ++ octs 8 p.address }
{
    let mut octets = [0u8; 10];
    octets::put(&mut octets, 0, p.pan);
    octets::put(&mut octets, 2, p.address);
    octets
}

// The first lookup record of mode 0 with the peer's mode, PAN and address; none where the peer is nobody.
#[tactic(auto, unfolding(crate::specs::Rows::implicit_row))]
fn implicit_row(lookups: &[u8], p: Address) -> Option<usize>
    ensures { result ≡ implicit_row lookups.now p }
{
    let mode = p.mode;
    if mode == 0 {
        return None;
    }
    let octets = peer_octets(p);
    let n = 2 + modes::address_len(mode);
    lookup_row(lookups, 0, 11, mode, &octets[..n])
}

// The first lookup record that matches: in mode 0 by the peer, otherwise by index and key source.
#[tactic(auto, unfolding(crate::specs::Rows::key_row_by))]
pub fn key_row(lookups: &[u8], mode: u8, index: u8, source: &[u8], p: Address) -> Option<usize>
    requires { length source.now ≤ 8 }
    ensures { result ≡ key_row_by lookups.now mode index source.now p }
{
    match mode {
        0 => implicit_row(lookups, p),
        _ => lookup_row(lookups, mode, 2, index, source),
    }
}

// The key that lookup record i names.
#[tactic(auto, unfolding(meaning::specs::Steps::key_of))]
pub fn key_of(lookups: &[u8], i: usize) -> usize
    requires { i < records 22 lookups.now }
    ensures { result ≡ key_of lookups.now i }
{
    lookups[LOOKUP_LEN * i] as usize
}

// The first usage record of the key for the type, and for type 3 the command.
pub fn usage_row(usages: &[u8], key: usize, kind: u8, command: u8) -> Option<usize>
    ensures { result ≡ usage_row usages.now key kind command }
{
    (0..usages.len() / USAGE_LEN).find(|&i| {
        usages[USAGE_LEN * i] as usize == key && fits_at(usages, USAGE_LEN * i + 1, kind, command)
    })
}
