// A device record, read by field.
ghost use Rattle.std.specs.Prelude.{◌≡◌, ◌/◌, ◌<◌};
ghost use Rattle.meaning.specs.Records.{records, device_at};

use crate::DEVICE_LEN;
use meaning::Device;

// Device record d, without its counter.
#[tactic(auto, unfolding(meaning::specs::Records::device_at))]
pub fn device_at(devices: &[u8], d: usize) -> Device
    requires { d < records 17 devices.now }
    ensures { result ≡ device_at devices.now d }
{
    let at = DEVICE_LEN * d;
    Device {
        pan: octets::whole::<u16>(devices, at),
        short: octets::whole::<u16>(devices, at + 2),
        extended: octets::whole::<u64>(devices, at + 4),
        exempt: devices[at + 16],
    }
}
