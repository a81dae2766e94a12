// Security levels and address modes: what their numbers say. Clients cite specs/Frame.antt of the meaning.
#![tactic(auto)]

ghost use Rattle.std.specs.Prelude.{◌≡◌};
ghost use Rattle.meaning.specs.Frame.{address_len, tag_len, enciphers, at_least};

// One of the eight security levels (standard, Table 58), by its number; they stand under two orders at once. Document 01 names this form.
#[derive(Clone, Copy, PartialEq, Eq)]
pub struct Level(pub u8);

impl Level {
    pub const NONE: Level = Level(0);

    pub const MIC_32: Level = Level(1);

    pub const MIC_64: Level = Level(2);

    pub const MIC_128: Level = Level(3);

    pub const ENC: Level = Level(4);

    pub const ENC_MIC_32: Level = Level(5);

    pub const ENC_MIC_64: Level = Level(6);

    pub const ENC_MIC_128: Level = Level(7);

    // The octets of the tag: 0, 4, 8 or 16.
    #[tactic(auto, unfolding(meaning::specs::Frame::tag_len))]
    pub fn tag_len(self) -> usize
        ensures { result ≡ tag_len self.0 }
    {
        match self.0 % 4 {
            0 => 0,
            1 => 4,
            2 => 8,
            _ => 16,
        }
    }

    // Levels 4 to 7 encipher the private payload.
    #[tactic(auto, unfolding(meaning::specs::Frame::enciphers))]
    pub fn enciphers(self) -> bool
        ensures { result ≡ enciphers self.0 }
    {
        4 <= self.0
    }

    // This level is at least the other, in both orders.
    #[tactic(auto, unfolding(meaning::specs::Frame::at_least))]
    pub fn at_least(self, other: Level) -> bool
        ensures { result ≡ at_least self.0 other.0 }
    {
        other.0 / 4 <= self.0 / 4 && other.0 % 4 <= self.0 % 4
    }
}

// The octets of an address, by its mode.
#[tactic(auto, unfolding(meaning::specs::Frame::address_len))]
pub fn address_len(mode: u8) -> usize
    ensures { result ≡ address_len mode }
{
    match mode {
        2 => 2,
        3 => 8,
        _ => 0,
    }
}
