// Handles: the devices of a key, in their order.
ghost use Rattle.std.specs.Prelude.{◌≡◌, ℕ, ◌+◌, ◌*◌, ◌/◌, ◌<◌, get_or};
ghost use Rattle.meaning.specs.Records.{records, handle_at, devices_in, handles_in};
ghost use Rattle.meaning.specs.Steps.{handle_row};

use crate::peers::is_peer;
use meaning::Address;
use records::{HANDLE_LEN, device_at};

// The device that handle j names.
#[tactic(auto, unfolding(meaning::specs::Records::handle_at))]
pub fn device_of(handles: &[u8], j: usize) -> usize
    requires { j < records 2 handles.now }
    ensures { result ≡ (handle_at handles.now j).device }
{
    handles[HANDLE_LEN * j + 1] as usize
}

// The first handle of the key whose device is the peer. Only the devices of the key's own handles are looked at.
pub fn handle_row(handles: &[u8], devices: &[u8], key: usize, p: Address) -> Option<usize>
    requires { (j : ℕ) → j < records 2 handles.now → get_or handles.now (2 * j + 1) 0 < records 17 devices.now }
    ensures { result ≡ handle_row (handles_in handles.now) (devices_in devices.now) key p }
{
    (0..handles.len() / HANDLE_LEN).find(|&j| {
        handles[HANDLE_LEN * j] as usize == key
            && is_peer(device_at(devices, device_of(handles, j)), p)
    })
}
