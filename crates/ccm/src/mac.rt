// The chaining value over data and message, and the sixteen octets that a tag is cut from.
ghost use Rattle.std.specs.Prelude.{◌≡◌, ◌≤◌, ◌<◌, length};
ghost use Rattle.meaning.specs.Ccm.{xor_by};
ghost use Rattle.aes.specs.Schedule.{cipher_by};
ghost use Rattle.ccm.specs.Tags.{chain_over, chain_data, whole_tag};

use crate::formatting::{counter_block, first_block, size16};
use aes::Cipher;

// Adds other's octets to those of sum, as far as both go; what is left of sum stays.
// By index: of what `iter_mut` lent beside another iterator a proof knows no element afterwards.
pub fn add(sum: &mut [u8], other: &[u8])
    ensures { sum.new ≡ xor_by sum.old other.now }
{
    for i in 0..sum.len().min(other.len()) {
        sum[i] ^= other[i];
    }
}

// The chaining value after a message, zeros to a whole block, from x.
fn chain(cipher: &Cipher, x: [u8; 16], message: &[u8]) -> [u8; 16]
    ensures { result ≡ chain_over (cipher_by cipher.now.schedule) x message.now }
{
    let mut y = x;
    for block in message.chunks(16) {
        add(&mut y, block);
        y = cipher.encrypt(y);
    }
    y
}

// The chaining value after the authenticated data, which follow their length, from x.
fn chain_data(cipher: &Cipher, x: [u8; 16], data: &[u8]) -> [u8; 16]
    ensures { result ≡ chain_data (cipher_by cipher.now.schedule) x «data».now }
{
    if data.is_empty() {
        return x;
    }
    let n = data.len().min(14);
    let mut y = x;
    add(&mut y[..2], &size16(data.len()));
    add(&mut y[2..], &data[..n]);
    chain(cipher, cipher.encrypt(y), &data[n..])
}

// Sixteen octets whose first m are the tag over data and message; nothing is changed.
pub fn tag(
    cipher: &Cipher,
    nonce: [u8; 13],
    m: usize,
    authenticated: &[u8],
    message: &[u8],
) -> [u8; 16]
    requires m_bound { m ≤ 16 }
    requires authenticated_len_bound { length authenticated.now < 65280 }
    requires message_len_bound { length message.now < 65536 }
    ensures { result ≡ whole_tag (cipher_by cipher.now.schedule) nonce m authenticated.now message.now }
{
    let first = first_block(nonce, m, authenticated.len(), message.len());
    let x = cipher.encrypt(first);
    let y = chain_data(cipher, x, authenticated);
    let mut z = chain(cipher, y, message);
    let key = cipher.encrypt(counter_block(nonce, 0));
    add(&mut z, &key);
    z
}
