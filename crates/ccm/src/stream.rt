// The key stream, added in place.
ghost use Rattle.std.specs.Prelude.{◌≡◌};
ghost use Rattle.meaning.specs.Ccm.{crypt as crypted};
ghost use Rattle.aes.specs.Schedule.{cipher_by};

use crate::formatting::counter_block;
use crate::mac::add;
use aes::Cipher;

// Adds the key stream to a message in place: enciphers, and deciphers.
// By index: of what `chunks_mut` lent a proof knows no element afterwards.
pub fn crypt(cipher: &Cipher, nonce: [u8; 13], message: &mut [u8])
    ensures { message.new ≡ crypted (cipher_by cipher.now.schedule) nonce message.old }
{
    let n = message.len();
    for i in 0..n.div_ceil(16) {
        let key = cipher.encrypt(counter_block(nonce, i + 1));
        add(&mut message[16 * i..n.min(16 * i + 16)], &key);
    }
}
