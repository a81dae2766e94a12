// The rules of each record, and of all records of a kind.
ghost use Rattle.std.specs.Prelude.{◌≡◌, ℕ, Bool, ◌+◌, ◌*◌, ◌/◌, ◌≤◌, ◌<◌, length};
ghost use Rattle.meaning.specs.Octets.{every};
ghost use Rattle.meaning.specs.Records.{records, device_at, handle_at, device_right, level_right, lookup_right, usage_right, handle_right};

use crate::{DEVICE_LEN, HANDLE_LEN, LEVEL_LEN, LOOKUP_LEN, USAGE_LEN};

#[tactic(auto, unfolding(meaning::specs::Records::device_right, meaning::specs::Records::device_at))]
fn device_right(b: &[u8], i: usize) -> bool
    requires { 17 * i + 17 ≤ length b.now }
    ensures { result ≡ device_right (device_at b.now i) }
{
    b[DEVICE_LEN * i + 16] <= 1
}

#[tactic(auto, unfolding(meaning::specs::Records::level_right))]
fn level_right(b: &[u8], i: usize) -> bool
    requires { 5 * i + 5 ≤ length b.now }
    ensures { result ≡ level_right b.now i }
{
    b[LEVEL_LEN * i] <= 3 && b[LEVEL_LEN * i + 2] <= 7 && b[LEVEL_LEN * i + 3] <= 1
}

// The key exists, the mode is in range, and mode 0 has a peer mode.
#[tactic(auto, unfolding(meaning::specs::Records::lookup_right))]
fn lookup_right(b: &[u8], i: usize, keys: usize) -> bool
    requires { 22 * i + 22 ≤ length b.now }
    ensures { result ≡ lookup_right keys b.now i }
{
    (b[LOOKUP_LEN * i] as usize) < keys
        && b[LOOKUP_LEN * i + 1] <= 3
        && (b[LOOKUP_LEN * i + 1] != 0
            || b[LOOKUP_LEN * i + 11] == 2
            || b[LOOKUP_LEN * i + 11] == 3)
}

#[tactic(auto, unfolding(meaning::specs::Records::usage_right))]
fn usage_right(b: &[u8], i: usize, keys: usize) -> bool
    requires { 3 * i + 3 ≤ length b.now }
    ensures { result ≡ usage_right keys b.now i }
{
    (b[USAGE_LEN * i] as usize) < keys && b[USAGE_LEN * i + 1] <= 3
}

// Key and device exist.
#[tactic(auto, unfolding(meaning::specs::Records::handle_right, meaning::specs::Records::handle_at))]
fn handle_right(b: &[u8], i: usize, keys: usize, devices: usize) -> bool
    requires { 2 * i + 2 ≤ length b.now }
    ensures { result ≡ handle_right keys devices (handle_at b.now i) }
{
    (b[HANDLE_LEN * i] as usize) < keys && (b[HANDLE_LEN * i + 1] as usize) < devices
}

// Whether each number below n passes. By `for`, since `all` takes one or two instructions more for each record.
fn each<F: Fn(usize) -> bool>(n: usize, right: F) -> bool
    requires { (i : ℕ) → i < n → F.pre right i }
    ensures { (p : ℕ → Bool) → ((i : ℕ) (r : Bool) → i < n → F.post right i r → r ≡ p i) → result ≡ every p n }
{
    for i in 0..n {
        if !right(i) {
            return false;
        }
    }
    true
}

// Each record of a body keeps the rule of its kind.
pub fn devices_right(b: &[u8]) -> bool
    ensures { result ≡ every (λ i. device_right (device_at b.now i)) (records 17 b.now) }
{
    each(b.len() / DEVICE_LEN, |i| device_right(b, i))
}

pub fn levels_right(b: &[u8]) -> bool
    ensures { result ≡ every (level_right b.now) (records 5 b.now) }
{
    each(b.len() / LEVEL_LEN, |i| level_right(b, i))
}

pub fn lookups_right(b: &[u8], keys: usize) -> bool
    ensures { result ≡ every (lookup_right keys b.now) (records 22 b.now) }
{
    each(b.len() / LOOKUP_LEN, |i| lookup_right(b, i, keys))
}

pub fn usages_right(b: &[u8], keys: usize) -> bool
    ensures { result ≡ every (usage_right keys b.now) (records 3 b.now) }
{
    each(b.len() / USAGE_LEN, |i| usage_right(b, i, keys))
}

pub fn handles_right(b: &[u8], keys: usize, devices: usize) -> bool
    ensures { result ≡ every (λ i. handle_right keys devices (handle_at b.now i)) (records 2 b.now) }
{
    each(b.len() / HANDLE_LEN, |i| handle_right(b, i, keys, devices))
}
