// Sealing a frame in place, and opening a body into a scratch buffer, by the level.
ghost use Rattle.std.specs.Prelude.{◌≡◌, ◌+◌, ◌≤◌, ◌<◌, length};
ghost use Rattle.meaning.specs.Frame.{tag_len};
ghost use Rattle.aes.specs.Schedule.{cipher_by};
ghost use Rattle.ccm.specs.Tags.{tag_by, crypt_by, Sealing, Opening};

use crate::mac::tag;
use crate::stream::crypt;
use aes::Cipher;
use modes::Level;

// A key's cipher under a nonce, at a level: what a frame is sealed by, and opened.
#[derive(Clone, Copy)]
pub struct Keyed<'a> {
    pub cipher: &'a Cipher<'a>,
    pub nonce: [u8; 13],
    pub level: Level,
}

impl Keyed<'_> {
    // The tag: over the first `opens` octets of `clear` and the text, and below level 4 over all of `clear`.
    #[tactic(auto, unfolding(crate::specs::Tags::tag_by, meaning::specs::Frame::tag_len))]
    fn tag(&self, clear: &[u8], opens: usize, text: &[u8]) -> [u8; 16]
        requires opens_in_bounds { (opens ≤ length clear.now) × (length clear.now < 65280) }
        requires text_len_bound { length text.now < 65536 }
        ensures { result ≡ tag_by (cipher_by self.now.cipher.now.schedule) self.now.nonce self.now.level.0 clear.now opens text.now }
    {
        let m = self.level.tag_len();
        if self.level.enciphers() {
            tag(self.cipher, self.nonce, m, &clear[..opens], text)
        } else {
            tag(self.cipher, self.nonce, m, clear, &[])
        }
    }

    // Adds the key stream in place where the level enciphers; below 4 the message stays.
    #[tactic(auto, unfolding(crate::specs::Tags::crypt_by))]
    fn crypt(&self, message: &mut [u8])
        ensures { message.new ≡ crypt_by (cipher_by self.now.cipher.now.schedule) self.now.nonce self.now.level.0 message.old }
    {
        if self.level.enciphers() {
            crypt(self.cipher, self.nonce, message);
        }
    }

    // Seals a frame in place: its first `opens` octets are authenticated and stay, the others are the private payload, which levels 4 to 7 encipher.
    // The first `level.tag_len()` octets of the result are the tag.
    pub fn seal(&self, frame: &mut [u8], opens: usize) -> [u8; 16]
        requires { (opens ≤ length frame.old) × (length frame.old < 65280) }
        ensures { Sealing (cipher_by self.now.cipher.now.schedule) self.now.nonce self.now.level.0 opens frame.old frame.new result }
    {
        let clear = &frame[..];
        let sum = self.tag(clear, opens, &clear[opens..]);
        self.crypt(&mut frame[opens..]);
        sum
    }

    // Opens a body of `opens` octets that are authenticated, `private` octets of cipher text and the tag: true where the tag is right.
    // The text is left in front of `scratch`, whether it is or not; the rest of `scratch` and the body stay.
    #[tactic(auto, unfolding(meaning::specs::Frame::tag_len))]
    pub fn unseal(&self, body: &[u8], opens: usize, private: usize, scratch: &mut [u8]) -> bool
        requires level_value { (opens + private + tag_len self.now.level.0 ≡ length body.now) × (length body.now < 65280) }
        requires private_in_bounds { private ≤ length scratch.old }
        ensures { Opening (cipher_by self.now.cipher.now.schedule) self.now.nonce self.now.level.0 body.now opens private scratch.old scratch.new result }
    {
        let end = opens + private;
        octets::copy_in(scratch, 0, &body[opens..end]);
        self.crypt(&mut scratch[..private]);
        let sum = self.tag(&body[..end], opens, &scratch[..private]);
        octets::equal(&body[end..], &sum[..self.level.tag_len()])
    }
}
