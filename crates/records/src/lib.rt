// The records of the seven kinds, as the file and the site have them: their names, lengths and limits, and their rules.
// Records are read by number and place, as the definitions number them; by `chunks_exact` their fields would be read by place all the same.
// Clients cite `tables_rule`, `width_of`, `limit_of` and `least_of` of the meaning's Records.
#![tactic(auto)]

mod clashes;
mod devices;
mod layouts;
mod parts;
mod rules;
mod settings;

ghost use Rattle.std.specs.Prelude.{◌≡◌, ◌*◌};
ghost use Rattle.meaning.specs.Records.{width_of, limit_of, least_of, count_right};
ghost use Rattle.records.specs.Kinds.{number_of};

pub use devices::device_at;
pub use layouts::{Bodies, Layout, body, holds};
pub use parts::{part_of, rest_from};
pub use settings::Settings;

// The kinds of records, in the order that file and site have.
#[derive(Clone, Copy, PartialEq, Eq)]
pub enum Kind {
    Settings = 0,
    Devices = 1,
    Levels = 2,
    Keys = 3,
    Lookups = 4,
    Usages = 5,
    Handles = 6,
}

// The octets of a record.
pub const SETTINGS_LEN: usize = 35;

pub const DEVICE_LEN: usize = 17;

pub const LEVEL_LEN: usize = 5;

pub const KEY_LEN: usize = 16;

pub const LOOKUP_LEN: usize = 22;

pub const USAGE_LEN: usize = 3;

pub const HANDLE_LEN: usize = 2;

// The most records of a kind.
pub const SETTINGS_LIMIT: usize = 1;

pub const DEVICE_LIMIT: usize = 64;

pub const LEVEL_LIMIT: usize = 16;

pub const KEY_LIMIT: usize = 16;

pub const LOOKUP_LIMIT: usize = 64;

pub const USAGE_LIMIT: usize = 64;

pub const HANDLE_LIMIT: usize = 256;

// The octets of all records, where there are as many of each kind as there may be.
pub const TABLES_LEN: usize = SETTINGS_LEN * SETTINGS_LIMIT
    + DEVICE_LEN * DEVICE_LIMIT
    + LEVEL_LEN * LEVEL_LIMIT
    + KEY_LEN * KEY_LIMIT
    + LOOKUP_LEN * LOOKUP_LIMIT
    + USAGE_LEN * USAGE_LIMIT
    + HANDLE_LEN * HANDLE_LIMIT;

// Where the own counter stands in the settings.
pub const OWN_AT: usize = 31;

impl Kind {
    pub const ALL: [Kind; 7] = [
        Kind::Settings,
        Kind::Devices,
        Kind::Levels,
        Kind::Keys,
        Kind::Lookups,
        Kind::Usages,
        Kind::Handles,
    ];

    // The octets of a record. This and the largest count are two tables of the document: one of pairs would be no plainer.
    #[tactic(auto, unfolding(meaning::specs::Records::width_of))]
    pub fn width(self) -> usize
        ensures { result ≡ width_of (number_of self) }
    {
        match self {
            Kind::Settings => SETTINGS_LEN,
            Kind::Devices => DEVICE_LEN,
            Kind::Levels => LEVEL_LEN,
            Kind::Keys => KEY_LEN,
            Kind::Lookups => LOOKUP_LEN,
            Kind::Usages => USAGE_LEN,
            Kind::Handles => HANDLE_LEN,
        }
    }

    // The largest count.
    #[tactic(auto, unfolding(meaning::specs::Records::limit_of))]
    pub fn limit(self) -> usize
        ensures { result ≡ limit_of (number_of self) }
    {
        match self {
            Kind::Settings => SETTINGS_LIMIT,
            Kind::Devices => DEVICE_LIMIT,
            Kind::Levels => LEVEL_LIMIT,
            Kind::Keys => KEY_LIMIT,
            Kind::Lookups => LOOKUP_LIMIT,
            Kind::Usages => USAGE_LIMIT,
            Kind::Handles => HANDLE_LIMIT,
        }
    }

    // The octets of n records.
    pub fn size(self, n: u16) -> u32
        ensures { result ≡ width_of (number_of self) * n }
    {
        self.width() as u32 * (n as u32)
    }

    // Whether a count is in range.
    #[tactic(auto, unfolding(meaning::specs::Records::count_right))]
    pub fn count_right(self, n: usize) -> bool
        ensures { result ≡ count_right (number_of self) n }
    {
        least(self as usize) <= n && n <= self.limit()
    }
}

// The smallest count of a kind: there is just one settings record. Of any number, since its contract asks nothing.
#[tactic(auto, unfolding(meaning::specs::Records::least_of))]
pub fn least(kind: usize) -> usize
    ensures { result ≡ least_of kind }
{
    if kind == Kind::Settings as usize {
        1
    } else {
        0
    }
}
