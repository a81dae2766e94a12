// The filter, a function for each of its rules.
ghost use Rattle.std.specs.Prelude.{◌≡◌, not, ◌&&◌, eqb};
ghost use Rattle.meaning.specs.Records.{pan_id, is_coordinator};
ghost use Rattle.meaning.specs.Filter.{strange_pan, strange_short, strange_extended, strange_beacon, strange_source, cause};

use meaning::{Address, Header};
use records::Settings;

// The destination PAN is neither ours nor the broadcast PAN.
#[tactic(auto, unfolding(meaning::specs::Filter::strange_pan))]
pub fn strange_pan(settings: Settings, to: Address) -> bool
    ensures { result ≡ strange_pan settings.entry.octets.now to }
{
    to.mode != 0 && to.pan != settings.pan_id() && to.pan != 0xffff
}

// The short destination is neither ours nor the broadcast address.
#[tactic(auto, unfolding(meaning::specs::Filter::strange_short))]
pub fn strange_short(settings: Settings, to: Address) -> bool
    ensures { result ≡ strange_short settings.entry.octets.now to }
{
    to.mode == 2 && to.address != settings.short_address() as u64 && to.address != 0xffff
}

// The extended destination is not ours.
#[tactic(auto, unfolding(meaning::specs::Filter::strange_extended))]
pub fn strange_extended(settings: Settings, to: Address) -> bool
    ensures { result ≡ strange_extended settings.entry.octets.now to }
{
    to.mode == 3 && to.address != settings.extended_address()
}

// A beacon comes from another PAN, while we have one.
#[tactic(auto, unfolding(meaning::specs::Filter::strange_beacon))]
pub fn strange_beacon(settings: Settings, h: Header) -> bool
    ensures { result ≡ strange_beacon settings.entry.octets.now h }
{
    h.kind == 0 && h.source.pan != settings.pan_id() && settings.pan_id() != 0xffff
}

// Nobody here is meant: there is no destination, and we are no PAN coordinator or the source PAN is another.
pub fn strange_origin(settings: Settings, h: Header) -> bool
    ensures { result ≡ (eqb h.destination.mode 0 && not (is_coordinator settings.entry.octets.now && eqb h.source.pan (pan_id settings.entry.octets.now))) }
{
    h.destination.mode == 0 && !(settings.is_coordinator() && h.source.pan == settings.pan_id())
}

// Data or a command is meant for nobody here.
#[tactic(auto, unfolding(meaning::specs::Filter::strange_source))]
pub fn strange_source(settings: Settings, h: Header) -> bool
    ensures { result ≡ strange_source settings.entry.octets.now h }
{
    (h.kind == 1 || h.kind == 3) && strange_origin(settings, h)
}

// The number of the first rule that drops a header, 0 where none does: a number, since the definition `cause` counts document 01's rules so.
#[tactic(auto, unfolding(meaning::specs::Filter::cause))]
pub fn cause(settings: &[u8], h: Header) -> u8
    ensures { result ≡ cause settings.now h }
{
    let settings = Settings { octets: settings };
    if 3 < h.kind {
        1
    } else if 1 < h.version {
        2
    } else if strange_pan(settings, h.destination) {
        3
    } else if strange_short(settings, h.destination) {
        4
    } else if strange_extended(settings, h.destination) {
        5
    } else if strange_beacon(settings, h) {
        6
    } else if strange_source(settings, h) {
        7
    } else {
        0
    }
}
