// Frame control, from a frame's first octets: a line for each field, with the octet, the weight and the width that the standard gives it.
// A generic function over these three would take them in the same line, and would not read as the definitions do.
#![tactic(auto, unfolding(meaning::specs::Frame::type_of, meaning::specs::Frame::security_of, meaning::specs::Frame::pending_of, meaning::specs::Frame::request_of, meaning::specs::Frame::compression_of, meaning::specs::Frame::destination_mode, meaning::specs::Frame::version_of, meaning::specs::Frame::source_mode))]

ghost use Rattle.std.specs.Prelude.{◌≡◌};
ghost use Rattle.meaning.specs.Frame.{type_of, security_of, pending_of, request_of, compression_of, destination_mode, version_of, source_mode};

// The frame type.
pub fn type_of(h: &[u8]) -> u8
    ensures { result ≡ type_of h.now }
{
    octets::octet(h, 0) % 8
}

// 1 where security is on, else 0.
pub fn security_of(h: &[u8]) -> u8
    ensures { result ≡ security_of h.now }
{
    octets::octet(h, 0) / 8 % 2
}

// 1 where more is pending, else 0.
pub fn pending_of(h: &[u8]) -> u8
    ensures { result ≡ pending_of h.now }
{
    octets::octet(h, 0) / 16 % 2
}

// 1 where an acknowledgment is requested, else 0.
pub fn request_of(h: &[u8]) -> u8
    ensures { result ≡ request_of h.now }
{
    octets::octet(h, 0) / 32 % 2
}

// 1 under PAN ID compression, else 0.
pub fn compression_of(h: &[u8]) -> u8
    ensures { result ≡ compression_of h.now }
{
    octets::octet(h, 0) / 64 % 2
}

// The destination addressing mode.
pub fn destination_mode(h: &[u8]) -> u8
    ensures { result ≡ destination_mode h.now }
{
    octets::octet(h, 1) / 4 % 4
}

// The frame version.
pub fn version_of(h: &[u8]) -> u8
    ensures { result ≡ version_of h.now }
{
    octets::octet(h, 1) / 16 % 4
}

// The source addressing mode.
pub fn source_mode(h: &[u8]) -> u8
    ensures { result ≡ source_mode h.now }
{
    octets::octet(h, 1) / 64 % 4
}
