// A run of frames on a site that keeps its rules.
ghost use Rattle.std.specs.Prelude.{◌≡◌};
ghost use Rattle.export.specs.Boundary.{tally, many};

use fcs::Table;
use site::Site;

// How many of the frames are accepted, each a length octet and its octets, received one after the other up to the first that is cut.
pub fn receive_all(table: &Table, site: &mut Site, frames: &[u8], out: &mut [u8]) -> u64
    ensures same_reference { site.new.octets.ghost_name ≡ site.old.octets.ghost_name }
    ensures octets { tally result site.new.octets.now out.new ≡ many site.old.octets.now frames.now out.old }
{
    let mut accepted = 0;
    let mut rest = frames;
    while let Some((n, behind)) = rest.split_first() {
        let Some((frame, behind)) = behind.split_at_checked(usize::from(*n)) else {
            break;
        };
        let answer = receiver::receive_valid(table, site, frame, out);
        accepted += u64::from(answer.is_ok());
        rest = behind;
    }
    accepted
}
