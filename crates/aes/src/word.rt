// Words: four octets, the first lowest. A column of the state is one, and so is a word of the expanded key.
ghost use Rattle.std.specs.Prelude.{◌≡◌, [], ◌∷◌, ◌+◌, ◌≤◌, length};
ghost use Rattle.meaning.specs.Octets.{octs, part};
ghost use Rattle.aes.specs.Words.{turned, doubled, mix_column};

// The word of four octets. A function of its own, since its promise is of octets, and that of `from_le_bytes` of a number.
pub fn join(a: u8, b: u8, c: u8, d: u8) -> u32
    ensures { octs 4 result ≡ a ∷ b ∷ c ∷ d ∷ [] }
{
    u32::from_le_bytes([a, b, c, d])
}

// The word that stands in a slice from a place on.
pub fn word_at(s: &[u8], at: usize) -> u32
    requires { at + 4 ≤ length s.now }
    ensures { octs 4 result ≡ part at 4 s.now }
{
    octets::whole::<u32>(s, at)
}

// Each octet a place to the front, the first to the end.
fn turn(x: u32) -> u32
    ensures { octs 4 result ≡ turned (octs 4 x) }
{
    x.rotate_right(8)
}

// Each octet times {02}: the low seven bits doubled, and {1b} where the top bit was set. No carry leaves its octet.
fn double_each(x: u32) -> u32
    ensures { octs 4 result ≡ doubled (octs 4 x) }
{
    ((x & 0x7f7f7f7f) * 2) ^ (((x / 128) & 0x01010101) * 0x1b)
}

// A column times the matrix of MixColumns: in each row a + b is doubled, then b, c and d are added.
#[tactic(auto, using(crate::proofs::Words::mix_word))]
pub fn mix(x: u32) -> u32
    ensures { octs 4 result ≡ mix_column (octs 4 x) }
{
    let next = turn(x);
    let sum = x ^ next;
    double_each(sum) ^ next ^ turn(turn(sum))
}
