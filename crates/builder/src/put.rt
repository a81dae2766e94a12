// Writes a frame's parts, one after the other, each from the writer's place on.
ghost use Rattle.std.specs.Prelude.{◌≡◌, ◌≤◌, ◌<◌, length, take, drop};
ghost use Rattle.meaning.specs.Frame.{tag_len};
ghost use Rattle.meaning.specs.Fcs.{fcs};
ghost use Rattle.meaning.specs.Ccm.{sealed};
ghost use Rattle.meaning.specs.Build.{address_octets, placed_octets, source_octets, key_id_octets};
ghost use Rattle.aes.specs.Schedule.{cipher_by};
ghost use Rattle.ccm.specs.Tags.{Sealing};
ghost use Rattle.octets.specs.Writing.{Room, Over, Put};
ghost use Rattle.builder.specs.Stored.{closed};

use ccm::Keyed;
use meaning::{Address, Header, Request};
use octets::Writer;

// Seals the octets before `end`, those from `start` on as the private payload, and gives the tag. A slice of its own: of a part of the writer's field only the length would be known after the call.
fn seal_front(d: &mut [u8], end: usize, start: usize, keyed: &Keyed) -> [u8; 16]
    requires start { (start ≤ end) × (end < 128) }
    requires end { end ≤ length d.old }
    ensures front { Sealing (cipher_by keyed.now.cipher.now.schedule) keyed.now.nonce keyed.now.level.0 start (take end d.old) (take end d.new) result }
    ensures rest { drop end d.new ≡ drop end d.old }
{
    keyed.seal(&mut d[..end], start)
}

// An address, by its mode.
pub fn put_address(w: &mut Writer, a: Address)
    requires { Room w.old 8 }
    ensures { Put w.old (address_octets a) w.new }
{
    match a.mode {
        2 => w.word((a.address % 65536) as u16),
        3 => w.word(a.address),
        _ => (),
    }
}

// PAN and address, where there is one.
#[tactic(auto, using(crate::proofs::Puts::placed))]
pub fn put_placed(w: &mut Writer, a: Address)
    requires { Room w.old 10 }
    ensures { Put w.old (placed_octets a) w.new }
{
    if a.mode != 0 {
        w.word(a.pan);
        put_address(w, a);
    }
}

// The source; compression drops its PAN.
pub fn put_source(w: &mut Writer, h: Header)
    requires { Room w.old 10 }
    ensures { Put w.old (source_octets h) w.new }
{
    if h.compression == 1 {
        put_address(w, h.source);
    } else {
        put_placed(w, h.source);
    }
}

// The key identifier.
#[tactic(auto, using(crate::proofs::Puts::key_ids))]
pub fn put_key_id(w: &mut Writer, q: Request)
    requires { Room w.old 9 }
    ensures { Put w.old (key_id_octets q) w.new }
{
    if q.keymode != 0 {
        w.all(&q.keysource[..frame::key_source_len(q.keymode)]);
        w.octet(q.keyindex);
    }
}

// Seals what was written: from `start` on the cipher text, and the tag after it.
pub fn seal(w: &mut Writer, start: usize, keyed: &Keyed)
    requires start { (start ≤ w.old.at) × (w.old.at < 128) }
    requires room { Room w.old (tag_len keyed.now.level.0) }
    ensures { Over w.old start (closed (sealed (cipher_by keyed.now.cipher.now.schedule) keyed.now.nonce keyed.now.level.0 (take start w.old.out.now) (drop start (take w.old.at w.old.out.now)))) w.new }
{
    let tag = seal_front(w.out, w.at, start, keyed);
    w.all(&tag[..keyed.level.tag_len()]);
}

// The FCS of all before it.
pub fn put_fcs(w: &mut Writer, table: &fcs::Table)
    requires { Room w.old 2 }
    ensures { Put w.old (fcs (take w.old.at w.old.out.now)) w.new }
{
    let sum = table.sum(w.written());
    w.word(sum);
}
