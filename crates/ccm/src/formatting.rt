// The nonce, and the blocks that hold it: flags, nonce and a number.
ghost use Rattle.std.specs.Prelude.{◌≡◌, ◌∷◌, ◌++◌, ◌≤◌};
ghost use Rattle.meaning.specs.Ccm.{nonce_of, size16, flags_of, first_block, counter_block};

use modes::Level;

// The nonce: extended address, frame counter and security level, most significant octet first.
#[tactic(auto, unfolding(meaning::specs::Ccm::nonce_of, meaning::specs::Octets::octs))]
pub fn nonce(extended: u64, counter: u32, level: Level) -> [u8; 13]
    ensures { result ≡ nonce_of extended counter level.0 }
{
    let mut nonce = [level.0; 13];
    nonce[..8].copy_from_slice(&extended.to_be_bytes());
    nonce[8..12].copy_from_slice(&counter.to_be_bytes());
    nonce
}

// A length or a block number in two octets, most significant first.
#[tactic(auto, unfolding(meaning::specs::Ccm::size16))]
pub fn size16(n: usize) -> [u8; 2]
    ensures { result ≡ size16 n }
{
    ((n % 65536) as u16).to_be_bytes()
}

// The flags of the first block, for a tag of m octets over n octets of data.
// m stays a number, of at most 16: `tag`, where a caller gives it, is promised of each, and a level has four of them alone.
#[tactic(auto, unfolding(meaning::specs::Ccm::flags_of))]
fn flags(m: usize, n: usize) -> u8
    requires { m ≤ 16 }
    ensures { result ≡ flags_of m n }
{
    let data = if n == 0 { 0 } else { 64 };
    (data + 8 * (m.saturating_sub(2) / 2) + 1) as u8
}

// A block of flags, nonce and a number in two octets, most significant first.
fn numbered(flag: u8, nonce: [u8; 13], n: usize) -> [u8; 16]
    ensures { result ≡ flag ∷ (nonce ++ size16 n) }
{
    let mut block = [flag; 16];
    block[1..14].copy_from_slice(&nonce);
    block[14..].copy_from_slice(&size16(n));
    block
}

// The block whose cipher is block i of the key stream.
#[tactic(auto, unfolding(meaning::specs::Ccm::counter_block))]
pub fn counter_block(nonce: [u8; 13], i: usize) -> [u8; 16]
    ensures { result ≡ counter_block nonce i }
{
    numbered(1, nonce, i)
}

// The first block that is authenticated, for a tag of m octets over n octets of data and a message of k.
#[tactic(auto, unfolding(meaning::specs::Ccm::first_block))]
pub fn first_block(nonce: [u8; 13], m: usize, n: usize, k: usize) -> [u8; 16]
    requires { m ≤ 16 }
    ensures { result ≡ first_block nonce m n k }
{
    numbered(flags(m, n), nonce, k)
}
