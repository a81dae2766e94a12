// The key expansion (FIPS 197, 5.2), word by word.
ghost use Rattle.std.specs.Prelude.{◌≡◌, ◌+◌, ◌*◌, ◌<◌, take};
ghost use Rattle.meaning.specs.Cipher.{power};
ghost use Rattle.aes.specs.Schedule.{scheduled, grown};

use crate::sbox::Sbox;

// What a key is expanded to.
pub type Schedule = [u8; 176];

// Powers of {02}, the round constants.
const RCON: [u8; 10] = [0x01, 0x02, 0x04, 0x08, 0x10, 0x20, 0x40, 0x80, 0x1b, 0x36];

// The round constant of round n + 1. That there are ten rounds stays a clause: a type of rounds would be made and opened at each turn of one loop.
fn rcon(n: usize) -> u8
    requires { n < 10 }
    ensures { result ≡ power n }
{
    RCON[n]
}

// The first word of round key n + 1, where those before are there: by the word before, rotated and put through the S-box.
#[tactic(auto, using(crate::proofs::Expansion::first_made))]
fn first_word(sbox: &Sbox, w: &mut Schedule, n: usize)
    requires { n < 10 }
    ensures { w.new ≡ grown w.old (16 * n + 16) 4 }
{
    let i = 16 * n + 16;
    w[i] = w[i - 16] ^ (sbox.sub(w[i - 3]) ^ rcon(n));
    w[i + 1] = w[i - 15] ^ sbox.sub(w[i - 2]);
    w[i + 2] = w[i - 14] ^ sbox.sub(w[i - 1]);
    w[i + 3] = w[i - 13] ^ sbox.sub(w[i - 4]);
}

// The other three words of round key n + 1: each octet by the one four places before.
fn other_words(w: &mut Schedule, n: usize)
    requires { n < 10 }
    ensures { w.new ≡ grown w.old (16 * n + 20) 12 }
{
    let i = 16 * n + 20;
    for j in 0..12 {
        w[i + j] = w[i + j - 16] ^ w[i + j - 4];
    }
}

// The key in front, and room for the rest of its schedule.
fn begin(key: &[u8; 16]) -> Schedule
    ensures { take 16 result ≡ key.now }
{
    let mut w = [0u8; 176];
    w[..16].copy_from_slice(key);
    w
}

// The schedule of a key; the key stays.
pub fn schedule(sbox: &Sbox, key: &[u8; 16]) -> Schedule
    ensures { result ≡ scheduled key.now }
{
    let mut w = begin(key);
    for n in 0..10 {
        first_word(sbox, &mut w, n);
        other_words(&mut w, n);
    }
    w
}
