// The bodies of all kinds: their rules, and where they lie in octets of a layout.
ghost use Rattle.std.specs.Prelude.{◌≡◌, ℕ, Bool, true, List, ◌+◌, ◌*◌, ◌≤◌, ◌<◌, length, take};
ghost use Rattle.meaning.specs.Records.{settings, devices, levels, keys, lookups, usages, handles, kinds, width_of, own_at, tables_by, tables_rule};
ghost use Rattle.records.specs.Kinds.{number_of};
ghost use Rattle.records.specs.Layouts.{body_by, holds_by};

use crate::clashes::distinct;
use crate::rules::{devices_right, handles_right, levels_right, lookups_right, usages_right};
use crate::settings::Settings;
use crate::{DEVICE_LEN, Kind, OWN_AT};

// The octets of the records of each kind, and how many keys there are: no rule reads a key.
#[derive(Clone, Copy)]
pub struct Bodies<'a> {
    pub settings: &'a [u8],
    pub devices: &'a [u8],
    pub levels: &'a [u8],
    pub keys: usize,
    pub lookups: &'a [u8],
    pub usages: &'a [u8],
    pub handles: &'a [u8],
}

impl Bodies<'_> {
    // Whether the records keep every rule: any octets, of any length.
    pub fn tables_right(self) -> bool
        ensures { result ≡ tables_rule self.entry.keys (tables_by self.entry.settings.now self.entry.devices.now self.entry.levels.now self.entry.lookups.now self.entry.usages.now self.entry.handles.now) }
    {
        let devices = self.devices.len() / DEVICE_LEN;
        let settings = Settings {
            octets: self.settings,
        };
        settings.right()
            && devices_right(self.devices)
            && levels_right(self.levels)
            && lookups_right(self.lookups, self.keys)
            && usages_right(self.usages, self.keys)
            && handles_right(self.handles, self.keys, devices)
            && distinct(self.devices, devices)
    }
}

// Octets with a body for each kind: a site file is one, a loaded site another.
pub trait Layout {
    ghost right: { List ℕ → Bool };

    ghost count: { List ℕ → ℕ → ℕ };

    ghost place: { List ℕ → ℕ → ℕ };

    // Whether lengths, counts and places are right: then the bodies lie in the octets.
    fn right(octets: &[u8]) -> bool
        ensures { result ≡ right octets.now };

    // How many records of a kind there are.
    fn count(octets: &[u8], kind: Kind) -> u16
        ensures { result ≡ count octets.now (number_of kind) };

    // Where the records of a kind start.
    fn place(octets: &[u8], kind: Kind) -> usize
        ensures { result ≡ place octets.now (number_of kind) };

    ghost inside: { (s : List ℕ) (k : ℕ) → right s ≡ true → k < kinds → place s k + width_of k * count s k ≤ length s };

    ghost settled: { (s : List ℕ) → right s ≡ true → 1 ≤ count s settings };
}

// The records of a kind, where the layout is right.
pub fn body<'a, L: Layout>(octets: &'a [u8], kind: Kind) -> &'a [u8]
    requires { L.right octets.now ≡ true }
    ensures { result.now ≡ body_by L.place L.count octets.now (number_of kind) }
{
    let start = L::place(octets, kind);
    let end = start + kind.size(L::count(octets, kind)) as usize;
    &octets[start..end]
}

// The records of all kinds, where the layout is right.
fn all_bodies<'a, L: Layout>(octets: &'a [u8]) -> Bodies<'a>
    requires { L.right octets.now ≡ true }
    ensures settings { result.settings.now ≡ take own_at (body_by L.place L.count octets.now settings) }
    ensures devices { result.devices.now ≡ body_by L.place L.count octets.now devices }
    ensures levels { result.levels.now ≡ body_by L.place L.count octets.now levels }
    ensures keys { result.keys ≡ L.count octets.now keys }
    ensures lookups { result.lookups.now ≡ body_by L.place L.count octets.now lookups }
    ensures usages { result.usages.now ≡ body_by L.place L.count octets.now usages }
    ensures handles { result.handles.now ≡ body_by L.place L.count octets.now handles }
{
    Bodies {
        settings: &body::<L>(octets, Kind::Settings)[..OWN_AT],
        devices: body::<L>(octets, Kind::Devices),
        levels: body::<L>(octets, Kind::Levels),
        keys: L::count(octets, Kind::Keys) as usize,
        lookups: body::<L>(octets, Kind::Lookups),
        usages: body::<L>(octets, Kind::Usages),
        handles: body::<L>(octets, Kind::Handles),
    }
}

// Whether the octets, of any length and content, keep every rule of their layout.
pub fn holds<L: Layout>(octets: &[u8]) -> bool
    ensures { result ≡ holds_by (L.right octets.now) (body_by L.place L.count octets.now) }
{
    L::right(octets) && all_bodies::<L>(octets).tables_right()
}
