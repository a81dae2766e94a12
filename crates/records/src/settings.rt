// The settings record, read by field: any octets, those past the end 0. Every place in it but the own counter's stands here.
ghost use Rattle.std.specs.Prelude.{◌≡◌, get_or};
ghost use Rattle.meaning.specs.Records.{pan_id, short_address, extended_address, coordinator_short, coordinator_extended, default_key_source, security_on, is_coordinator, settings_right};

use crate::parts::part_of;

// The octets of the settings. Nothing is asked of them.
#[derive(Clone, Copy)]
pub struct Settings<'a> {
    pub octets: &'a [u8],
}

impl<'a> Settings<'a> {
    // macPANId.
    #[tactic(auto, unfolding(meaning::specs::Records::pan_id))]
    pub fn pan_id(self) -> u16
        ensures { result ≡ pan_id self.entry.octets.now }
    {
        octets::number::<u16>(self.octets, 0)
    }

    // macShortAddress.
    #[tactic(auto, unfolding(meaning::specs::Records::short_address))]
    pub fn short_address(self) -> u16
        ensures { result ≡ short_address self.entry.octets.now }
    {
        octets::number::<u16>(self.octets, 2)
    }

    // Our extended address.
    #[tactic(auto, unfolding(meaning::specs::Records::extended_address))]
    pub fn extended_address(self) -> u64
        ensures { result ≡ extended_address self.entry.octets.now }
    {
        octets::number::<u64>(self.octets, 4)
    }

    // macCoordShortAddress.
    #[tactic(auto, unfolding(meaning::specs::Records::coordinator_short))]
    pub fn coordinator_short(self) -> u16
        ensures { result ≡ coordinator_short self.entry.octets.now }
    {
        octets::number::<u16>(self.octets, 12)
    }

    // macCoordExtendedAddress.
    #[tactic(auto, unfolding(meaning::specs::Records::coordinator_extended))]
    pub fn coordinator_extended(self) -> u64
        ensures { result ≡ coordinator_extended self.entry.octets.now }
    {
        octets::number::<u64>(self.octets, 14)
    }

    // macDefaultKeySource, a part of the settings.
    #[tactic(auto, unfolding(meaning::specs::Records::default_key_source))]
    pub fn default_key_source(self) -> &'a [u8]
        ensures { result.now ≡ default_key_source self.entry.octets.now }
    {
        part_of(self.octets, 22, 8)
    }

    // The flags: security and coordinator.
    fn flags(self) -> u8
        ensures { result ≡ get_or self.entry.octets.now 30 0 }
    {
        octets::octet(self.octets, 30)
    }

    // Security is enabled.
    #[tactic(auto, unfolding(meaning::specs::Records::security_on))]
    pub fn security_on(self) -> bool
        ensures { result ≡ security_on self.entry.octets.now }
    {
        self.flags() % 2 == 1
    }

    // We are PAN coordinator.
    #[tactic(auto, unfolding(meaning::specs::Records::is_coordinator))]
    pub fn is_coordinator(self) -> bool
        ensures { result ≡ is_coordinator self.entry.octets.now }
    {
        self.flags() / 2 % 2 == 1
    }

    // The flags are in range.
    #[tactic(auto, unfolding(meaning::specs::Records::settings_right))]
    pub fn right(self) -> bool
        ensures { result ≡ settings_right self.entry.octets.now }
    {
        self.flags() < 4
    }
}
