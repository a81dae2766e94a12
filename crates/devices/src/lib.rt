// Device records lent as a slice of structs, tried in the order of the key's handles: a thin layer over the search of the handle table,
// which is octets, and the comparison. Nothing that is lent changes.
// Clients call `find_in`, whose parameters are plain: it gives the answer of search::handle_row, for every key and peer; or `find_at`, which asks nothing of them.
#![tactic(auto)]

ghost use Rattle.std.specs.Prelude.{◌≡◌, ℕ, ◌+◌, ◌*◌, ◌/◌, ◌≤◌, ◌<◌, length, get_or};
ghost use Rattle.meaning.specs.Records.{records, no_device, devices_in, handles_in};
ghost use Rattle.meaning.specs.Steps.{handle_row};
ghost use Rattle.search.specs.Rows.{handle_row_by};
ghost use Rattle.devices.specs.Devices.{handle_from, devices_of, devices_lent, found_at};

use meaning::{Address, Device};
use records::Kind;
use site::View;

// Whose record is sought, by which key.
#[derive(Clone, Copy)]
pub struct Sought {
    pub key: usize,
    pub peer: Address,
}

// A handle whose device is to be tried: its number, and the device's.
#[derive(Clone, Copy)]
pub struct Trial {
    pub at: usize,
    pub device: usize,
}

// The search of the handle table: the first handle of the key, from a number on; none where there is no other.
pub fn handle_from(handles: &[u8], key: usize, from: usize) -> Option<Trial>
    ensures { result ≡ handle_from handles.now key from }
{
    (from..handles.len() / 2)
        .find(|&j| handles[2 * j] as usize == key)
        .map(|at| Trial {
            at,
            device: search::device_of(handles, at),
        })
}

// One record of the slice.
pub fn device_at(devices: &[Device], i: usize) -> Device
    requires { i < length devices.now }
    ensures { result ≡ get_or devices.now i no_device }
{
    devices[i]
}

// The first handle of the key whose device is the peer: the records are tried in the order of the key's handles.
// That each handle names a record stays a clause: it is of two tables that callers lend apart, and `find_in` keeps its plain parameters.
pub fn find(devices: &[Device], handles: &[u8], s: Sought) -> Option<usize>
    requires { (j : ℕ) → j < records 2 handles.now → get_or handles.now (2 * j + 1) 0 < length devices.now }
    ensures { result ≡ handle_row_by handles.now devices.now s.key s.peer }
{
    let mut next = handle_from(handles, s.key, 0);
    while let Some(t) = next {
        if search::is_peer(device_at(devices, t.device), s.peer) {
            return Some(t.at);
        }
        next = handle_from(handles, s.key, t.at + 1);
    }
    None
}

// The records of a device table, at most 64; the rest are empty.
pub fn decoded(table: &[u8]) -> [Device; 64]
    requires { length table.now ≤ 1088 }
    ensures { result ≡ devices_of table.now }
{
    let mut out = [Device::default(); 64];
    for i in 0..table.len() / 17 {
        out[i] = search::device_at(table, i);
    }
    out
}

// The table's records are decoded, lent as a slice of structs, and tried.
pub fn find_lent(table: &[u8], handles: &[u8], s: Sought) -> Option<usize>
    requires { (length table.now ≤ 1088) × ((j : ℕ) → j < records 2 handles.now → get_or handles.now (2 * j + 1) 0 < records 17 table.now) }
    ensures { result ≡ handle_row_by handles.now (devices_lent table.now) s.key s.peer }
{
    find(&decoded(table)[..table.len() / 17], handles, s)
}

// The first handle of the key whose device is the peer: the answer of search::handle_row, through records lent as structs.
pub fn find_in(handles: &[u8], devices: &[u8], key: usize, p: Address) -> Option<usize>
    requires { (length devices.now ≤ 1088) × ((j : ℕ) → j < records 2 handles.now → get_or handles.now (2 * j + 1) 0 < records 17 devices.now) }
    ensures { result ≡ handle_row (handles_in handles.now) (devices_in devices.now) key p }
{
    find_lent(devices, handles, Sought { key, peer: p })
}

// The same in a site of any content and length; nothing is found in one that breaks a rule.
pub fn find_at(site: &[u8], key: usize, p: Address) -> Option<usize>
    ensures { result ≡ found_at site.now key p }
{
    if site::site_holds(site) {
        let view = View::new(site);
        find_in(view.table(Kind::Handles), view.table(Kind::Devices), key, p)
    } else {
        None
    }
}
