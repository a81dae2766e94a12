// What of a frame can be divided, and its open payload, given back without copying.
ghost use Rattle.std.specs.Prelude.{◌≡◌, Some, None};
ghost use Rattle.meaning.specs.Octets.{pick};
ghost use Rattle.meaning.specs.Frame.{cuts_of};
ghost use Rattle.frame.specs.Parts.{divided, cuts_in, open_payload};

use crate::division::{body_fits, cuts, level_in, pending_right};
use crate::header::{header_right, read_header};
use crate::{MAX_LEN, MIN_LEN};
use meaning::Cuts;
use records::part_of;

// The cuts of a frame, given without its FCS, that status 5 does not refuse.
fn cuts_where_right(body: &[u8]) -> Option<Cuts>
    ensures { result ≡ pick (divided body.now) (Some (cuts_of body.now)) None }
{
    let c = cuts(body);
    let h = read_header(part_of(body, 0, c.head));
    let right = header_right(c, h, body.len())
        && body_fits(c, level_in(body, c), body.len())
        && pending_right(h.kind, part_of(body, c.head + c.aux, c.opens));
    if right { Some(c) } else { None }
}

// Status 5 does not refuse a frame, given without its FCS.
pub fn divides(body: &[u8]) -> bool
    ensures { result ≡ divided body.now }
{
    cuts_where_right(body).is_some()
}

// The cuts of a received frame with its FCS; none where it cannot be divided.
#[tactic(auto, using(meaning::proofs::Tests::tests, meaning::proofs::Tests::calls), unfolding(crate::specs::Parts::cuts_in, meaning::specs::Fcs::inner))]
pub fn divided(frame: &[u8]) -> Option<Cuts>
    ensures { result ≡ cuts_in frame.now }
{
    if frame.len() < MIN_LEN || MAX_LEN < frame.len() {
        return None;
    }
    cuts_where_right(&frame[..frame.len() - 2])
}

// The open payload of a received frame with its FCS, a part of that frame; empty where the frame cannot be divided, as the definition has it.
pub fn open_payload(frame: &[u8]) -> &[u8]
    ensures { result.now ≡ open_payload frame.now }
{
    match divided(frame) {
        Some(c) => part_of(frame, c.head + c.aux, c.opens),
        None => &frame[..0],
    }
}
