// The functions of the crate export, for C: the archive that include/wirdhalef.h is the manual of. A slice is a pointer and its length there.
// Each function is the library's of the same name, and promises the same: six functions of one line each, since the C interface needs a name,
// a signature and a contract for each, and clauses are not written by macros.
#![tactic(auto)]

ghost use Rattle.std.specs.Prelude.{◌≡◌};
ghost use Rattle.meaning.specs.Site.{site_rule};
ghost use Rattle.meaning.specs.Loading.{bridged, loaded};
ghost use Rattle.meaning.specs.Build.{bit};
ghost use Rattle.export.specs.Boundary.{exchange, received_by, open_place, delivery, built_by, tally, received_many};

// Loads a site file into a site: 0, or 1 where the file breaks a rule, or 2 where the site has not a site's length; then nothing changes.
#[unsafe(no_mangle)]
pub extern "C" fn wirdhalef_load(file: &[u8], site: &mut [u8]) -> u8
    ensures { bridged result site.new ≡ loaded file.now site.old }
{
    export::wirdhalef_load(file, site)
}

// 1 where the site keeps its rules, else 0; nothing changes.
#[unsafe(no_mangle)]
pub extern "C" fn wirdhalef_site_holds(site: &[u8]) -> u8
    ensures { result ≡ bit (site_rule site.now) }
{
    export::wirdhalef_site_holds(site)
}

// The status of a received frame; its whole answer stands in the first 48 octets of `answer`, and `site` and `out` change as receiving
// says. With an answer buffer of less than 48 octets the status is 2 and nothing changes.
#[unsafe(no_mangle)]
pub extern "C" fn wirdhalef_receive(
    site: &mut [u8],
    frame: &[u8],
    out: &mut [u8],
    answer: &mut [u8],
) -> u8
    ensures { exchange result site.new out.new answer.new ≡ received_by site.old frame.now out.old answer.old }
{
    export::wirdhalef_receive(site, frame, out, answer)
}

// Where the open payload of a frame with its FCS stands: its start times 65536 and its length; 0 where the frame cannot be divided.
#[unsafe(no_mangle)]
pub extern "C" fn wirdhalef_open_payload(frame: &[u8]) -> u32
    ensures { result ≡ open_place frame.now }
{
    export::wirdhalef_open_payload(frame)
}

// The status of a build request and 256 times the length of its frame, which stands in front of `out`; the request stands in 28 octets,
// those that are missing count as 0. `site` changes as building says; a refusal changes nothing.
#[unsafe(no_mangle)]
pub extern "C" fn wirdhalef_build(
    site: &mut [u8],
    request: &[u8],
    opens: &[u8],
    private: &[u8],
    out: &mut [u8],
) -> u32
    ensures { delivery result site.new out.new ≡ built_by site.old request.now opens.now private.now out.old }
{
    export::wirdhalef_build(site, request, opens, private, out)
}

// How many of the frames are accepted, each a length octet and its octets, received one after the other up to the first that is cut.
// Where the site breaks its rules the number is 0 and nothing changes.
#[unsafe(no_mangle)]
pub extern "C" fn wirdhalef_receive_many(site: &mut [u8], frames: &[u8], out: &mut [u8]) -> u64
    ensures { tally result site.new out.new ≡ received_many site.old frames.now out.old }
{
    export::wirdhalef_receive_many(site, frames, out)
}
