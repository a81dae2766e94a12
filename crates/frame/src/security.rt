// The security header, which starts at its slice's first octet.
ghost use Rattle.std.specs.Prelude.{◌≡◌, drop};
ghost use Rattle.meaning.specs.Frame.{level_of, mode_of, counter_of, key_source_len, key_id_len, key_index_of};
ghost use Rattle.meaning.specs.Steps.{key_source};

use modes::Level;
use records::{Settings, part_of, rest_from};

// The security level, 0 where the header is empty.
#[tactic(auto, unfolding(meaning::specs::Frame::level_of))]
pub fn level_of(aux: &[u8]) -> Level
    ensures { result.0 ≡ level_of aux.now }
{
    Level(octets::octet(aux, 0) % 8)
}

// The key mode, 0 where the header is empty.
#[tactic(auto, unfolding(meaning::specs::Frame::mode_of))]
pub fn mode_of(aux: &[u8]) -> u8
    ensures { result ≡ mode_of aux.now }
{
    octets::octet(aux, 0) / 8 % 4
}

// The frame counter.
#[tactic(auto, unfolding(meaning::specs::Frame::counter_of))]
pub fn counter_of(aux: &[u8]) -> u32
    ensures { result ≡ counter_of aux.now }
{
    octets::number::<u32>(aux, 1)
}

// The octets of a key source, by the key mode. It is alike to `address_len`, and another table of the standard.
#[tactic(auto, unfolding(meaning::specs::Frame::key_source_len))]
pub fn key_source_len(mode: u8) -> usize
    ensures { result ≡ key_source_len mode }
{
    match mode {
        2 => 4,
        3 => 8,
        _ => 0,
    }
}

// The octets of a key identifier: the source and, but for mode 0, the index.
#[tactic(auto, using(crate::proofs::Bounds::bounds), unfolding(meaning::specs::Frame::key_id_len))]
pub fn key_id_len(mode: u8) -> usize
    ensures { result ≡ key_id_len mode }
{
    if mode == 0 {
        0
    } else {
        key_source_len(mode) + 1
    }
}

// The key index, which stands after the key source.
#[tactic(auto, using(crate::proofs::Bounds::bounds), unfolding(meaning::specs::Frame::key_index_of))]
pub fn key_index(aux: &[u8]) -> u8
    ensures { result ≡ key_index_of aux.now }
{
    octets::octet(aux, 5 + key_source_len(mode_of(aux)))
}

// The key source to compare in receiving: the settings' default in mode 1, otherwise the header's own, after the control octet and the counter.
pub fn key_source<'a>(aux: &'a [u8], settings: &'a [u8], mode: u8) -> &'a [u8]
    ensures { result.now ≡ key_source settings.now (drop 5 aux.now) mode }
{
    source_compared(rest_from(aux, 5), settings, mode)
}

// The same of any octets that start with the source, as a request's do.
#[tactic(auto, unfolding(meaning::specs::Steps::key_source))]
pub fn source_compared<'a>(given: &'a [u8], settings: &'a [u8], mode: u8) -> &'a [u8]
    ensures { result.now ≡ key_source settings.now given.now mode }
{
    if mode == 1 {
        Settings { octets: settings }.default_key_source()
    } else {
        part_of(given, 0, key_source_len(mode))
    }
}
