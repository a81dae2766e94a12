// A frame without its FCS, divided once: what is read of it, what is opened, and what is answered of it.
ghost use Rattle.std.specs.Prelude.{◌≡◌, ◌+◌, ◌≤◌, length};
ghost use Rattle.meaning.specs.Fcs.{inner};
ghost use Rattle.meaning.specs.Frame.{cuts_of, view, level_of, counter_of, tag_len, open_end, private_len};
ghost use Rattle.meaning.specs.Receive.{answer_of, report, private_of};
ghost use Rattle.meaning.specs.Room.{Fits};
ghost use Rattle.aes.specs.Schedule.{cipher_by};
ghost use Rattle.receiver.specs.Parts.{OpenedWith, nonce_in, key_mode};

use aes::Cipher;
use ccm::Keyed;
use meaning::{Accepted, Cuts};
use modes::Level;

// The key mode that an answer tells: 0 at level 0.
fn key_mode(level: Level, mode: u8) -> u8
    ensures { result ≡ key_mode level.0 mode }
{
    if level == Level::NONE { 0 } else { mode }
}

// The octets, and where they are cut; header, security header, open payload and tag stand in them.
#[derive(Clone, Copy)]
pub struct Divided<'a> {
    octets: &'a [u8],
    cuts: Cuts,
    ghost cut: { cuts ≡ cuts_of octets.now },
    ghost whole: { open_end (cuts_of octets.now) + tag_len (level_of (view octets.now).aux) ≤ length octets.now },
    ghost short: { length octets.now ≤ 125 },
}

impl<'a> Divided<'a> {
    // Divides a frame whose parts fit it.
    pub fn new(frame: &'a [u8]) -> Divided<'a>
        requires { Fits frame.now }
        ensures { result.octets.now ≡ inner frame.now }
    {
        let octets = crate::body_of(frame);
        Divided {
            octets,
            cuts: frame::cuts(octets),
        }
    }

    // The security header.
    #[tactic(auto, using(crate::proofs::Bodies::divided))]
    fn aux(&self) -> &'a [u8]
        ensures { result.now ≡ (view self.now.octets.now).aux }
    {
        frame::part_of(self.octets, self.cuts.head, self.cuts.aux)
    }

    // The security level.
    #[tactic(auto, using(crate::proofs::Bodies::divided))]
    fn level(&self) -> Level
        ensures { result.0 ≡ level_of (view self.now.octets.now).aux }
    {
        frame::level_in(self.octets, self.cuts)
    }

    // The frame counter.
    pub fn counter(&self) -> u32
        ensures { result ≡ counter_of (view self.now.octets.now).aux }
    {
        frame::counter_of(self.aux())
    }

    // Where the open payload starts.
    fn start(&self) -> usize
        ensures { result ≡ self.now.cuts.head + self.now.cuts.aux }
    {
        self.cuts.head + self.cuts.aux
    }

    // Where the open payload ends, and the private one starts.
    #[tactic(auto, using(crate::proofs::Bodies::divided), unfolding(meaning::specs::Frame::open_end))]
    fn opens(&self) -> usize
        ensures { result ≡ open_end (view self.now.octets.now).cuts }
    {
        self.start() + self.cuts.opens
    }

    // The octets of the private payload, which stands before the tag.
    #[tactic(auto, using(crate::proofs::Bodies::divided), unfolding(meaning::specs::Frame::private_len, meaning::specs::Frame::open_end))]
    fn private_len(&self) -> usize
        ensures { result ≡ private_len (view self.now.octets.now) }
    {
        self.octets.len() - self.opens() - self.level().tag_len()
    }

    // The private payload.
    #[tactic(auto, using(crate::proofs::Bodies::divided), unfolding(meaning::specs::Receive::private_of))]
    pub fn private(&self) -> &'a [u8]
        ensures { result.now ≡ private_of (view self.now.octets.now) self.now.octets.now }
    {
        frame::part_of(self.octets, self.opens(), self.private_len())
    }

    // The nonce under the sender's extended address: that, the frame's counter and its level.
    #[tactic(auto, using(crate::proofs::Bodies::divided), unfolding(crate::specs::Parts::nonce_in))]
    pub fn nonce(&self, extended: u64) -> [u8; 13]
        ensures { result ≡ nonce_in self.now.octets.now extended }
    {
        ccm::nonce(extended, self.counter(), self.level())
    }

    // Deciphers the private payload to the front of the scratch, and tells whether the tag is right; nothing else that is lent changes.
    #[tactic(auto, using(crate::proofs::Bodies::divided), unfolding(meaning::specs::Receive::private_of))]
    pub fn unseal(&self, cipher: &Cipher, nonce: [u8; 13], scratch: &mut [u8; 127]) -> bool
        ensures { OpenedWith (cipher_by cipher.now.schedule) nonce self.now.octets.now scratch.old result scratch.new }
    {
        let keyed = Keyed {
            cipher,
            nonce,
            level: self.level(),
        };
        keyed.unseal(self.octets, self.opens(), self.private_len(), scratch)
    }

    // The answer to the accepted frame, by the device's number.
    #[tactic(auto, using(crate::proofs::Bodies::divided), unfolding(meaning::specs::Receive::report))]
    pub fn accepted(&self, device: usize) -> Accepted
        ensures { answer_of (Ok result) ≡ report (view self.now.octets.now) (level_of (view self.now.octets.now).aux) device }
    {
        let level = self.level();
        Accepted {
            header: frame::read_header(frame::part_of(self.octets, 0, self.cuts.head)),
            level: level.0,
            keymode: key_mode(level, frame::mode_of(self.aux())),
            device,
            private: self.private_len(),
            start: self.start(),
            len: self.cuts.opens,
        }
    }
}
