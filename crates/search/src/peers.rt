// The peer, and the device record that is its.
ghost use Rattle.std.specs.Prelude.{◌≡◌};
ghost use Rattle.meaning.specs.Records.{devices_in};
ghost use Rattle.meaning.specs.Steps.{stand_in, peer_of, is_peer, device_row};

use meaning::{Address, Device};
use records::{DEVICE_LEN, Settings, device_at};

// The coordinator as the settings name it: by its short address, by its extended one where that is 0xfffe, nobody where it is 0xffff.
#[tactic(auto, unfolding(meaning::specs::Steps::stand_in))]
pub fn stand_in(settings: &[u8]) -> Address
    ensures { result ≡ stand_in settings.now }
{
    let settings = Settings { octets: settings };
    let pan = settings.pan_id();
    match settings.coordinator_short() {
        0xffff => Address::default(),
        0xfffe => Address {
            mode: 3,
            pan,
            address: settings.coordinator_extended(),
        },
        short => Address {
            mode: 2,
            pan,
            address: short as u64,
        },
    }
}

// The peer: the address, or the coordinator where it is absent.
#[tactic(auto, unfolding(meaning::specs::Steps::peer_of))]
pub fn peer_of(settings: &[u8], a: Address) -> Address
    ensures { result ≡ peer_of settings.now a }
{
    match a.mode {
        0 => stand_in(settings),
        _ => a,
    }
}

// The device is the peer: PAN and address are its, in the address form given.
#[tactic(auto, unfolding(meaning::specs::Steps::is_peer))]
pub fn is_peer(d: Device, p: Address) -> bool
    ensures { result ≡ is_peer p d }
{
    match p.mode {
        2 => d.short as u64 == p.address && d.pan == p.pan,
        3 => d.extended == p.address && d.pan == p.pan,
        _ => false,
    }
}

// The first device record, in file order, that is the peer's.
pub fn device_row(devices: &[u8], p: Address) -> Option<usize>
    ensures { result ≡ device_row (devices_in devices.now) p }
{
    (0..devices.len() / DEVICE_LEN).find(|&d| is_peer(device_at(devices, d), p))
}
