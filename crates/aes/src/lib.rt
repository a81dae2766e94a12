// AES-128 (FIPS 197), encryption. A `Cipher` is made once for a key, with the S-box that it looks octets up in.
// Read sbox, field and word, then keys and rounds.
#![tactic(auto)]

mod field;
mod keys;
mod rounds;
mod sbox;
mod word;

ghost use Rattle.std.specs.Prelude.{◌≡◌};
ghost use Rattle.meaning.specs.Cipher.{cipher};

pub use field::product;
pub use keys::Schedule;
pub use rounds::Cipher;
pub use sbox::{Sbox, sbox_table};

// The cipher of a block under a key.
pub fn encrypt(key: [u8; 16], block: [u8; 16]) -> [u8; 16]
    ensures { result ≡ cipher key block }
{
    Cipher::new(&key).encrypt(block)
}
