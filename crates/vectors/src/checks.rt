// What a record says, tried on the cipher: a block, sealing, opening.
ghost use Rattle.std.specs.Prelude.{◌+◌, ◌≤◌};

use crate::records::Record;
use aes::Cipher;
use ccm::Keyed;
use modes::Level;

// A record of CCM* whose data and text are no longer than its room for them.
#[derive(Drop)]
struct Vector<'a, 'b> {
    record: &'a Record,
    keyed: Keyed<'b>,
    opens: usize,
    private: usize,
    ghost fits: { opens + private ≤ 64 },
}

impl Vector<'_, '_> {
    // Sealing gives the octets and the tag given.
    #[tactic(auto, unfolding(meaning::specs::Frame::tag_len))]
    fn seals(&self) -> bool {
        let n = self.opens + self.private;
        let given = &self.record.octets[..];
        let mut frame: [u8; 64] = self.record.part(64);
        let tag = self.keyed.seal(&mut frame[..n], self.opens);
        let m = self.keyed.level.tag_len();
        frame[..n] == given[128..128 + n] && tag[..m] == given[128 + n..128 + n + m]
    }

    // Opening gives the verdict given, and the text where that is to accept.
    #[tactic(auto, unfolding(meaning::specs::Frame::tag_len))]
    fn unseals(&self, accepted: bool) -> bool {
        let n = self.opens + self.private + self.keyed.level.tag_len();
        let given = &self.record.octets[..];
        let mut scratch = [0; 64];
        let body = &given[128..128 + n];
        let right = self
            .keyed
            .unseal(body, self.opens, self.private, &mut scratch);
        right == accepted
            && (!right
                || scratch[..self.private]
                    == given[64 + self.opens..64 + self.opens + self.private])
    }
}

// The block's cipher is the one given.
fn cipher_holds(record: &Record) -> bool {
    aes::encrypt(record.key(), record.part(64)) == record.part(128)
}

// Sealing, where the record is one to accept, and opening hold.
fn ccm_holds(record: &Record) -> bool {
    let opens = record.octets[1] as usize;
    let private = record.octets[2] as usize;
    if 64 < opens + private {
        return false;
    }
    let cipher = Cipher::new(&record.key());
    let keyed = Keyed {
        cipher: &cipher,
        nonce: record.part(48),
        level: Level(record.octets[0]),
    };
    let vector = Vector {
        record,
        keyed,
        opens,
        private,
    };
    let accepted = record.octets[3] == 1;
    (!accepted || vector.seals()) && vector.unseals(accepted)
}

// All that a record says holds.
pub fn record_holds(record: &Record) -> bool {
    // Level 8 is a block of AES: so `layout.txt` has it, which `stdin` is written by.
    if record.octets[0] == 8 {
        cipher_holds(record)
    } else {
        ccm_holds(record)
    }
}
