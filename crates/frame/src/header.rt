// The header's fields, and the header's half of status 5.
ghost use Rattle.std.specs.Prelude.{◌≡◌};
ghost use Rattle.meaning.specs.Frame.{header_of, modes_right, compression_right, shape_right, head_right};

use crate::control::{
    compression_of, destination_mode, pending_of, request_of, security_of, source_mode, type_of,
    version_of,
};
use meaning::{Cuts, Header};

// The fields of a header, 0 where absent. Sequence number and addresses are read one after the other by a reader.
#[tactic(auto, unfolding(meaning::specs::Frame::header_of, meaning::specs::Frame::destination_of, meaning::specs::Frame::source_of, meaning::specs::Frame::destination_len, reader::specs::Fields::fields_of))]
pub fn read_header(head: &[u8]) -> Header
    ensures { result ≡ header_of head.now }
{
    let compression = compression_of(head);
    let fields = reader::read_fields(head, destination_mode(head), source_mode(head), compression);
    Header {
        kind: type_of(head),
        security: security_of(head),
        pending: pending_of(head),
        request: request_of(head),
        compression,
        version: version_of(head),
        sequence: fields.sequence,
        destination: fields.destination,
        source: fields.source,
    }
}

// Neither address has mode 1.
#[tactic(auto, unfolding(meaning::specs::Frame::modes_right))]
pub fn modes_right(h: Header) -> bool
    ensures { result ≡ modes_right h }
{
    h.destination.mode != 1 && h.source.mode != 1
}

// Compression stands only with both addresses.
#[tactic(auto, unfolding(meaning::specs::Frame::compression_right))]
pub fn compression_right(h: Header) -> bool
    ensures { result ≡ compression_right h }
{
    h.compression == 0 || (h.destination.mode != 0 && h.source.mode != 0)
}

// The frame type allows the addresses, and of an acknowledgment security and size without FCS.
#[tactic(auto, unfolding(meaning::specs::Frame::shape_right))]
pub fn shape_right(h: Header, size: usize) -> bool
    ensures { result ≡ shape_right h size }
{
    let to = h.destination.mode;
    let from = h.source.mode;
    match h.kind {
        0 => to == 0 && from != 0,
        2 => to == 0 && from == 0 && h.security == 0 && size == 3,
        1 | 3 => to != 0 || from != 0,
        _ => true,
    }
}

// The header's half of status 5 does not refuse; the size is without FCS.
#[tactic(auto, unfolding(meaning::specs::Frame::head_right))]
pub fn header_right(c: Cuts, h: Header, size: usize) -> bool
    ensures { result ≡ head_right c h size }
{
    c.head <= size && modes_right(h) && compression_right(h) && shape_right(h, size)
}
