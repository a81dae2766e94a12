// The steps of a round (FIPS 197, 5.1) on a state of four columns, and the ten rounds by an expanded key.
ghost use Rattle.std.specs.Prelude.{◌≡◌, ◌≤◌};
ghost use Rattle.meaning.specs.Octets.{octs};
ghost use Rattle.meaning.specs.Cipher.{sub_bytes, shift_rows, mix_columns, add_round_key, round_key};
ghost use Rattle.aes.specs.Schedule.{scheduled, cipher_by};
ghost use Rattle.aes.specs.Words.{sub_column, state_of};

use crate::keys::{Schedule, schedule};
use crate::sbox::Sbox;
use crate::word::{join, mix, word_at};

// A state: a word for each column. Four names are plainer than indices where each column takes them in an order of its own.
#[derive(Clone, Copy)]
struct Columns {
    a: u32,
    b: u32,
    c: u32,
    d: u32,
}

// A block as a state.
#[tactic(auto, using(crate::proofs::States::loaded), unfolding(crate::specs::Words::state_of))]
fn load(block: [u8; 16]) -> Columns
    ensures { state_of result ≡ block }
{
    Columns {
        a: word_at(&block, 0),
        b: word_at(&block, 4),
        c: word_at(&block, 8),
        d: word_at(&block, 12),
    }
}

// A state as a block.
#[tactic(auto, using(crate::proofs::States::stored), unfolding(crate::specs::Words::state_of))]
fn store(s: Columns) -> [u8; 16]
    ensures { result ≡ state_of s }
{
    let mut block = [0u8; 16];
    octets::put(&mut block, 0, s.a);
    octets::put(&mut block, 4, s.b);
    octets::put(&mut block, 8, s.c);
    octets::put(&mut block, 12, s.d);
    block
}

// A column after SubBytes and ShiftRows: row 0 of a, row 1 of b, row 2 of c, row 3 of d, each through the S-box.
fn sub_column(sbox: &Sbox, a: u32, b: u32, c: u32, d: u32) -> u32
    ensures { octs 4 result ≡ sub_column a b c d }
{
    join(
        sbox.sub(a.to_le_bytes()[0]),
        sbox.sub(b.to_le_bytes()[1]),
        sbox.sub(c.to_le_bytes()[2]),
        sbox.sub(d.to_le_bytes()[3]),
    )
}

// The S-box at each octet, then row r goes r places to the left.
#[tactic(auto, using(crate::proofs::States::sub_shifted), unfolding(crate::specs::Words::state_of))]
fn sub_and_shift(sbox: &Sbox, s: Columns) -> Columns
    ensures { state_of result ≡ shift_rows (sub_bytes (state_of s)) }
{
    Columns {
        a: sub_column(sbox, s.a, s.b, s.c, s.d),
        b: sub_column(sbox, s.b, s.c, s.d, s.a),
        c: sub_column(sbox, s.c, s.d, s.a, s.b),
        d: sub_column(sbox, s.d, s.a, s.b, s.c),
    }
}

// Each column times the matrix of MixColumns.
#[tactic(auto, using(crate::proofs::States::mixed_columns), unfolding(crate::specs::Words::state_of))]
fn mix_columns(s: Columns) -> Columns
    ensures { state_of result ≡ mix_columns (state_of s) }
{
    Columns {
        a: mix(s.a),
        b: mix(s.b),
        c: mix(s.c),
        d: mix(s.d),
    }
}

// A state plus the round key n.
#[tactic(auto, using(crate::proofs::States::key_added), unfolding(crate::specs::Words::state_of))]
fn add_round_key(s: Columns, w: &Schedule, n: usize) -> Columns
    requires { n ≤ 10 }
    ensures { state_of result ≡ add_round_key (state_of s) (round_key w.now n) }
{
    let i = 16 * n;
    Columns {
        a: s.a ^ word_at(w, i),
        b: s.b ^ word_at(w, i + 4),
        c: s.c ^ word_at(w, i + 8),
        d: s.d ^ word_at(w, i + 12),
    }
}

// The cipher under one key: the S-box, and what the key is expanded to. Open, since a caller may bring a schedule that it stored.
#[derive(Clone, Copy)]
pub struct Cipher<'a> {
    pub sbox: Sbox<'a>,
    pub schedule: Schedule,
}

impl<'a> Cipher<'a> {
    pub fn new(key: &[u8; 16]) -> Cipher<'a>
        ensures { result.schedule ≡ scheduled key.now }
    {
        let sbox = Sbox::new();
        let schedule = schedule(&sbox, key);
        Cipher { sbox, schedule }
    }

    // The cipher of a block; the key's schedule stays.
    pub fn encrypt(&self, block: [u8; 16]) -> [u8; 16]
        ensures { result ≡ cipher_by self.now.schedule block }
    {
        let mut s = add_round_key(load(block), &self.schedule, 0);
        for i in 1..10 {
            let mixed = mix_columns(sub_and_shift(&self.sbox, s));
            s = add_round_key(mixed, &self.schedule, i);
        }
        store(add_round_key(sub_and_shift(&self.sbox, s), &self.schedule, 10))
    }
}
