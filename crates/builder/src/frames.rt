// Writes a whole frame, part after part.
ghost use Rattle.std.specs.Prelude.{◌≡◌, ◌++◌};
ghost use Rattle.aes.specs.Schedule.{cipher_by};
ghost use Rattle.meaning.specs.Build.{header_by, first_octet, second_octet, head_octets, aux_octets, with_fcs, plain_body};
ghost use Rattle.octets.specs.Writing.{Room, Put};
ghost use Rattle.builder.specs.Stored.{Laid, Ready, secured_by};

use crate::header::header_by;
use crate::order::Order;
use crate::put::{put_fcs, put_key_id, put_placed, put_source, seal};
use ccm::Keyed;
use meaning::Header;
use octets::Writer;
use records::Settings;

// An order that may be built, with its header: the fields are in range, and the frame has at most 127 octets.
#[derive(Clone, Copy)]
pub struct Draft<'a> {
    pub header: Header,
    pub order: Order<'a>,
    pub ghost ready: { Ready header order.q order.opens.now order.private.now },
}

impl<'a> Draft<'a> {
    // With the header that the settings give.
    pub fn new(settings: Settings, order: Order<'a>) -> Draft<'a>
        requires { Ready (header_by settings.octets.now order.q) order.q order.opens.now order.private.now }
        ensures header { result.header ≡ header_by settings.entry.octets.now order.entry.q }
        ensures order { result.order ≡ order.entry }
    {
        Draft {
            header: header_by(settings, order.q),
            order,
        }
    }

    // The first octet of frame control.
    #[tactic(auto, unfolding(meaning::specs::Build::first_octet))]
    pub fn first_octet(&self) -> u8
        ensures { result ≡ first_octet self.now.header }
    {
        let h = self.header;
        h.kind + 8 * h.security + 16 * h.pending + 32 * h.request + 64 * h.compression
    }

    // The second octet of frame control.
    #[tactic(auto, unfolding(meaning::specs::Build::second_octet))]
    pub fn second_octet(&self) -> u8
        ensures { result ≡ second_octet self.now.header }
    {
        let h = self.header;
        4 * h.destination.mode + 16 * h.version + 64 * h.source.mode
    }

    // The header.
    pub fn put_head(&self, w: &mut Writer)
        requires { Room w.old 23 }
        ensures { Put w.old (head_octets self.now.header) w.new }
    {
        w.octet(self.first_octet());
        w.octet(self.second_octet());
        w.octet(self.header.sequence);
        put_placed(w, self.header.destination);
        put_source(w, self.header);
    }

    // The security header with its counter; nothing at level 0.
    pub fn put_aux(&self, counter: u32, w: &mut Writer)
        requires { Room w.old 14 }
        ensures { Put w.old (aux_octets self.now.order.q counter) w.new }
    {
        if self.order.q.level != 0 {
            w.octet(self.order.q.level + 8 * self.order.q.keymode);
            w.word(counter);
            put_key_id(w, self.order.q);
        }
    }

    // What is open to all: header, security header and open payload.
    #[tactic(auto, using(crate::proofs::Puts::opens))]
    pub fn put_open(&self, counter: u32, w: &mut Writer)
        requires { Room w.old 127 }
        ensures { Put w.old (head_octets self.now.header ++ (aux_octets self.now.order.q counter ++ self.now.order.opens.now)) w.new }
    {
        self.put_head(w);
        self.put_aux(counter, w);
        w.all(self.order.opens);
    }

    // A frame without security, from the buffer's first octet on. Gives its length.
    pub fn put_plain(&self, table: &fcs::Table, out: &mut [u8; 127]) -> usize
        requires { self.now.order.q.level ≡ 0 }
        ensures { Laid out.old (with_fcs (plain_body (head_octets self.now.header) self.now.order.opens.now self.now.order.private.now)) result out.new }
    {
        let mut w = Writer::new(out);
        self.put_open(0, &mut w);
        w.all(self.order.private);
        put_fcs(&mut w, table);
        w.at
    }

    // A frame under a key, from the buffer's first octet on: the header, the security header and the open payload are authenticated with the private payload.
    // Gives its length.
    pub fn put_secured(
        &self,
        table: &fcs::Table,
        keyed: &Keyed,
        counter: u32,
        out: &mut [u8; 127],
    ) -> usize
        requires { keyed.now.level.0 ≡ self.now.order.q.level }
        ensures { Laid out.old (with_fcs (secured_by (cipher_by keyed.now.cipher.now.schedule) keyed.now.nonce keyed.now.level.0 (head_octets self.now.header ++ (aux_octets self.now.order.q counter ++ self.now.order.opens.now)) self.now.order.private.now)) result out.new }
    {
        let mut w = Writer::new(out);
        self.put_open(counter, &mut w);
        let start = w.at;
        w.all(self.order.private);
        seal(&mut w, start, keyed);
        put_fcs(&mut w, table);
        w.at
    }
}
