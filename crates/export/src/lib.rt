// Loading, receiving, building and the site's rules for programs in other languages, over octets alone. No function asks anything of its caller.
// Clients cite specs/Boundary.antt, and specs/Packed.antt for answers and requests in octets; include/wirdhalef.h is the manual. The crate
// export_c has the same functions for C.
#![tactic(auto)]

mod many;
mod packed;

ghost use Rattle.std.specs.Prelude.{◌≡◌};
ghost use Rattle.meaning.proofs.Lengths.{Bounded};
ghost use Rattle.meaning.specs.Status.{status};
ghost use Rattle.meaning.specs.Site.{site_rule};
ghost use Rattle.meaning.specs.Loading.{bridged, loaded};
ghost use Rattle.meaning.specs.Build.{bit};
ghost use Rattle.export.specs.Boundary.{exchange, received_by, open_place, place_in, delivery, built_by, tally, received_many};

use fcs::Table;
use meaning::{Cuts, Refusal};
use site::Site;

// The number of what a call answers: 0 for a success.
fn status_of<T>(answer: &Result<T, Refusal>) -> u8
    ensures { result ≡ status answer.now }
{
    match answer {
        Ok(_) => 0,
        Err(refusal) => u8::from(*refusal),
    }
}

// Loads a site file into a site: 0, or 1 where the file breaks a rule, or 2 where the site has not a site's length; then nothing changes.
pub fn wirdhalef_load(file: &[u8], site: &mut [u8]) -> u8
    ensures { bridged result site.new ≡ loaded file.now site.old }
{
    status_of(&load::load(file, site))
}

// 1 where the site keeps its rules, else 0; nothing changes.
pub fn wirdhalef_site_holds(site: &[u8]) -> u8
    ensures { result ≡ bit (site_rule site.now) }
{
    u8::from(site::site_holds(site))
}

// The status of a received frame; its whole answer stands in the first 48 octets of `answer`, and `site` and `out` change as receiving
// says. With an answer buffer of less than 48 octets the status is 2 and nothing changes.
#[tactic(auto, unfolding(crate::specs::Boundary::received_by, meaning::specs::Status::number))]
pub fn wirdhalef_receive(site: &mut [u8], frame: &[u8], out: &mut [u8], answer: &mut [u8]) -> u8
    ensures { exchange result site.new out.new answer.new ≡ received_by site.old frame.now out.old answer.old }
{
    if answer.len() < 48 {
        return u8::from(Refusal::Room);
    }
    let received = receiver::receive(site, frame, out);
    packed::put_received(answer, received);
    status_of(&received)
}

// Start and length in one number.
#[tactic(auto, unfolding(crate::specs::Boundary::place_in))]
fn place_in(c: Cuts) -> u32
    requires { Bounded c }
    ensures { result ≡ place_in c }
{
    65536 * ((c.head + c.aux) as u32) + c.opens as u32
}

// Where the open payload of a frame with its FCS stands: its start times 65536 and its length; 0 where the frame cannot be divided.
pub fn wirdhalef_open_payload(frame: &[u8]) -> u32
    ensures { result ≡ open_place frame.now }
{
    match frame::divided(frame) {
        Some(cuts) => place_in(cuts),
        None => 0,
    }
}

// The status of a build request and 256 times the length of its frame, which stands in front of `out`; the request stands in 28 octets,
// those that are missing count as 0. `site` changes as building says; a refusal changes nothing.
pub fn wirdhalef_build(
    site: &mut [u8],
    request: &[u8],
    opens: &[u8],
    private: &[u8],
    out: &mut [u8],
) -> u32
    ensures { delivery result site.new out.new ≡ built_by site.old request.now opens.now private.now out.old }
{
    let q = packed::request_from(request);
    let built = builder::build(site, q, opens, private, out);
    u32::from(status_of(&built)) + 256 * built.unwrap_or(0) as u32
}

// How many of the frames are accepted, each a length octet and its octets, received one after the other up to the first that is cut.
// Where the site breaks its rules the number is 0 and nothing changes.
#[tactic(auto, using(meaning::proofs::Tests::calls), unfolding(crate::specs::Boundary::received_many))]
pub fn wirdhalef_receive_many(site: &mut [u8], frames: &[u8], out: &mut [u8]) -> u64
    ensures { tally result site.new out.new ≡ received_many site.old frames.now out.old }
{
    if !site::site_holds(site) {
        return 0;
    }
    many::receive_all(&Table::new(), &mut Site::new(site), frames, out)
}
