// Where a frame without its FCS is divided, and the rules of status 5 on what follows the header.
ghost use Rattle.std.specs.Prelude.{◌≡◌, ◌+◌, leb};
ghost use Rattle.meaning.specs.Octets.{part};
ghost use Rattle.meaning.specs.Frame.{destination_len, source_len, head_m, aux_m, gts_len, pending_len, pending_sum, beacon_m, open_m, cuts_of, level_of, tag_len, open_end, pending_right};

use crate::control::{compression_of, destination_mode, security_of, source_mode, type_of};
use crate::security::{key_id_len, mode_of};
use meaning::Cuts;
use modes::{Level, address_len};
use records::rest_from;

// The octets of destination PAN and address.
#[tactic(auto, using(crate::proofs::Bounds::bounds), unfolding(meaning::specs::Frame::destination_len))]
pub fn destination_len(h: &[u8]) -> usize
    ensures { result ≡ destination_len h.now }
{
    match destination_mode(h) {
        0 => 0,
        mode => 2 + address_len(mode),
    }
}

// The octets of source PAN and address; compression drops the PAN.
#[tactic(auto, using(crate::proofs::Bounds::bounds), unfolding(meaning::specs::Frame::source_len))]
pub fn source_len(h: &[u8]) -> usize
    ensures { result ≡ source_len h.now }
{
    match source_mode(h) {
        0 => 0,
        mode if compression_of(h) == 1 => address_len(mode),
        mode => 2 + address_len(mode),
    }
}

// The octets of the header: control, sequence number and addresses.
#[tactic(auto, using(crate::proofs::Bounds::bounds, crate::proofs::Bounds::spans))]
pub fn head_len(body: &[u8]) -> usize
    ensures { result ≡ head_m body.now }
{
    3 + destination_len(body) + source_len(body)
}

// The octets of the security header that starts the rest of a frame, by the security bit.
#[tactic(auto, using(crate::proofs::Bounds::bounds), unfolding(meaning::specs::Frame::aux_m, meaning::specs::Frame::mode_of))]
pub fn aux_len(rest: &[u8], security: u8) -> usize
    ensures { result ≡ aux_m security rest.now }
{
    if security == 1 {
        5 + key_id_len(mode_of(rest))
    } else {
        0
    }
}

// The octets of the GTS list of a beacon payload.
#[tactic(auto, unfolding(meaning::specs::Frame::gts_len))]
pub fn gts_len(rest: &[u8]) -> usize
    ensures { result ≡ gts_len rest.now }
{
    match (octets::octet(rest, 2) % 8) as usize {
        0 => 0,
        count => 1 + 3 * count,
    }
}

// The octets of the pending addresses, after their control.
#[tactic(auto, unfolding(meaning::specs::Frame::pending_len))]
pub fn pending_len(rest: &[u8]) -> usize
    ensures { result ≡ pending_len rest.now }
{
    let control = octets::octet(rest, 0) as usize;
    2 * (control % 8) + 8 * (control / 16 % 8)
}

// How many pending addresses their control counts.
#[tactic(auto, unfolding(meaning::specs::Frame::pending_sum))]
pub fn pending_sum(rest: &[u8]) -> usize
    ensures { result ≡ pending_sum rest.now }
{
    let control = octets::octet(rest, 0) as usize;
    control % 8 + control / 16 % 8
}

// The octets of a beacon's open payload.
#[tactic(auto, using(crate::proofs::Bounds::bounds, crate::proofs::Bounds::spans))]
pub fn beacon_len(rest: &[u8]) -> usize
    ensures { result ≡ beacon_m rest.now }
{
    let fore = 3 + gts_len(rest);
    fore + (1 + pending_len(rest_from(rest, fore)))
}

// The octets of the open payload that starts the rest of a frame, by the frame type.
#[tactic(auto, unfolding(meaning::specs::Frame::open_m))]
pub fn open_len(rest: &[u8], kind: u8) -> usize
    ensures { result ≡ open_m kind rest.now }
{
    match kind {
        0 => beacon_len(rest),
        3 => 1,
        _ => 0,
    }
}

// How many octets header, security header and open payload take.
#[tactic(auto, using(crate::proofs::Bounds::bounds, crate::proofs::Bounds::spans))]
pub fn cuts(body: &[u8]) -> Cuts
    ensures { result ≡ cuts_of body.now }
{
    let head = head_len(body);
    let aux = aux_len(rest_from(body, head), security_of(body));
    let opens = open_len(rest_from(body, head + aux), type_of(body));
    Cuts { head, aux, opens }
}

// The level of the security header that the cuts give, before it is known to stand in the frame.
#[tactic(auto, unfolding(meaning::specs::Frame::level_of))]
pub fn level_in(body: &[u8], c: Cuts) -> Level
    ensures { result.0 ≡ level_of (part c.head c.aux body.now) }
{
    if c.aux == 0 {
        Level::NONE
    } else {
        Level(octets::octet(body, c.head) % 8)
    }
}

// The open octets and the tag fit the size.
#[tactic(auto, unfolding(meaning::specs::Frame::open_end))]
pub fn body_fits(c: Cuts, level: Level, size: usize) -> bool
    ensures { result ≡ leb (open_end c + tag_len level.0) size }
{
    c.head <= size
        && c.aux <= size - c.head
        && c.opens <= size - c.head - c.aux
        && level.tag_len() <= size - c.head - c.aux - c.opens
}

// A beacon counts at most 7 pending addresses.
#[tactic(auto, using(crate::proofs::Bounds::bounds), unfolding(meaning::specs::Frame::pending_right, meaning::specs::Frame::pending_part))]
pub fn pending_right(kind: u8, opens: &[u8]) -> bool
    ensures { result ≡ pending_right kind opens.now }
{
    kind != 0 || pending_sum(rest_from(opens, 3 + gts_len(opens))) <= 7
}
