// CCM* (standard, Annex B) over AES-128: nonce, tag, key stream; sealing a frame in place, and opening one into a scratch buffer.
// The cipher is made once for a key by the crate aes, and lent.
// Clients cite specs/Ccm.antt of the meaning and specs/Tags.antt here.
#![tactic(auto)]

mod formatting;
mod mac;
mod sealing;
mod stream;

pub use formatting::nonce;
pub use mac::tag;
pub use sealing::Keyed;
pub use stream::crypt;
