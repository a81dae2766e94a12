// Where the regions of a site lie, its counts, and their rules.
ghost use Rattle.std.specs.Prelude.{◌≡◌};
ghost use Rattle.std.proofs.Common.{arith};
ghost use Rattle.meaning.specs.Records.{count_right};
ghost use Rattle.meaning.specs.Site.{count_of, place_of, layout_right};
ghost use Rattle.meaning.proofs.Sites.{layout-inside, layout-one};
ghost use Rattle.records.specs.Kinds.{number_of};

use records::{Kind, Layout};

// The header: a count of two octets for each kind, and free octets.
const HEADER_LEN: usize = 32;

// Each region has room for its kind's limit, and the next starts behind it.
pub const SETTINGS_AT: usize = HEADER_LEN;

const DEVICES_AT: usize = SETTINGS_AT + records::SETTINGS_LEN * records::SETTINGS_LIMIT;

const LEVELS_AT: usize = DEVICES_AT + records::DEVICE_LEN * records::DEVICE_LIMIT;

const KEYS_AT: usize = LEVELS_AT + records::LEVEL_LEN * records::LEVEL_LIMIT;

const LOOKUPS_AT: usize = KEYS_AT + records::KEY_LEN * records::KEY_LIMIT;

const USAGES_AT: usize = LOOKUPS_AT + records::LOOKUP_LEN * records::LOOKUP_LIMIT;

const HANDLES_AT: usize = USAGES_AT + records::USAGE_LEN * records::USAGE_LIMIT;

// All octets of a site.
pub const SITE_LEN: usize = HEADER_LEN + records::TABLES_LEN;

// Where the region of a kind starts.
#[tactic(auto, unfolding(meaning::specs::Site::place_of, meaning::specs::Records::start_by, meaning::specs::Records::width_of, meaning::specs::Records::limit_of))]
pub fn place(kind: Kind) -> usize
    ensures { result ≡ place_of (number_of kind) }
{
    match kind {
        Kind::Settings => SETTINGS_AT,
        Kind::Devices => DEVICES_AT,
        Kind::Levels => LEVELS_AT,
        Kind::Keys => KEYS_AT,
        Kind::Lookups => LOOKUPS_AT,
        Kind::Usages => USAGES_AT,
        Kind::Handles => HANDLES_AT,
    }
}

// The layout of a site: counts stand in the header, each region at a place of its own.
pub struct Regions;

impl Layout for Regions {
    ghost right = { layout_right };

    ghost count = { count_of };

    ghost place = { λ s k. place_of k };

    ghost inside = { λ s k h l. layout-inside s h k l };

    ghost settled = { λ s h. Prim.omega (arith, layout-one s h) };

    // The length is a site's, and the seven counts are in range.
    fn right(site: &[u8]) -> bool {
        site.len() == SITE_LEN && Kind::ALL.iter().all(|kind| count_right(site, *kind))
    }

    #[tactic(auto, unfolding(meaning::specs::Site::count_of))]
    fn count(site: &[u8], kind: Kind) -> u16 {
        octets::number::<u16>(site, 2 * (kind as usize))
    }

    fn place(_site: &[u8], kind: Kind) -> usize {
        place(kind)
    }
}

// The count of a kind is in range.
fn count_right(site: &[u8], kind: Kind) -> bool
    ensures { result ≡ count_right (number_of kind) (count_of site.now (number_of kind)) }
{
    kind.count_right(Regions::count(site, kind) as usize)
}
