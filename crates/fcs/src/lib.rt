// The frame check sequence (standard 5.2.1.9), summed by a table of 256 entries, one octet after the other.
#![tactic(auto)]

mod entries;

ghost use Rattle.std.specs.Prelude.{◌≡◌};
ghost use Rattle.meaning.specs.Fcs.{sum};

pub use entries::Table;

// The FCS of a list of octets.
pub fn sum(s: &[u8]) -> u16
    ensures { result ≡ sum s.now }
{
    Table::new().sum(s)
}
