// Devices that clash: one extended address twice, or one PAN and short address.
ghost use Rattle.std.specs.Prelude.{◌≡◌, ◌+◌, ◌*◌, ◌≤◌, length};
ghost use Rattle.meaning.specs.Records.{device_at, clash};
ghost use Rattle.records.specs.Rules.{clashes_at, distinct_at};

use crate::DEVICE_LEN;
use crate::devices::device_at;
use meaning::Device;

// Device j shares its extended address with x, or its PAN and a short address below 0xfffe.
// Its fields are read one by one, where they are wanted: with `device_at` the test of a full site takes an eighth more instructions.
#[tactic(auto, unfolding(meaning::specs::Records::clash, meaning::specs::Records::device_at))]
fn clash(x: Device, b: &[u8], j: usize) -> bool
    requires { 17 * j + 17 ≤ length b.now }
    ensures { result ≡ clash x (device_at b.now j) }
{
    x.extended == octets::whole::<u64>(b, DEVICE_LEN * j + 4)
        || x.short == octets::whole::<u16>(b, DEVICE_LEN * j + 2)
            && x.pan == octets::whole::<u16>(b, DEVICE_LEN * j)
            && x.short < 0xfffe
}

// Device i has a clash with one before it.
fn clashes(b: &[u8], i: usize) -> bool
    requires { 17 * i + 17 ≤ length b.now }
    ensures { result ≡ clashes_at b.now i }
{
    let device = device_at(b, i);
    (0..i).any(|j| clash(device, b, j))
}

// No two of n devices clash.
pub fn distinct(b: &[u8], n: usize) -> bool
    requires { 17 * n ≤ length b.now }
    ensures { result ≡ distinct_at b.now n }
{
    !(0..n).any(|i| clashes(b, i))
}
