// The site file: whether octets keep its rules, and where its records lie.
// Clients cite `file_rule`, `file_count` and `file_body` of the meaning's File.
#![tactic(auto)]

mod contents;

ghost use Rattle.std.specs.Prelude.{◌≡◌, true};
ghost use Rattle.meaning.specs.File.{file_count, file_body, file_rule};
ghost use Rattle.records.specs.Kinds.{number_of};

use contents::Contents;
pub use contents::FILE_MOST;
use records::{Kind, Layout};

// Whether the octets, of any length and content, keep every rule of a site file.
#[tactic(auto, unfolding(meaning::specs::File::file_rule, meaning::specs::File::file_store, meaning::specs::File::file_tables, meaning::specs::File::file_body))]
pub fn file_holds(file: &[u8]) -> bool
    ensures { result ≡ file_rule file.now }
{
    records::holds::<Contents>(file)
}

// The count that the table of contents has for a kind.
pub fn count(file: &[u8], kind: Kind) -> u16
    ensures { result ≡ file_count file.now (number_of kind) }
{
    Contents::count(file, kind)
}

// Octets that keep every rule of a site file.
#[derive(Clone, Copy)]
pub struct SiteFile<'a> {
    pub octets: &'a [u8],
    pub ghost holds: { file_rule octets.now ≡ true },
}

impl<'a> SiteFile<'a> {
    pub fn new(octets: &'a [u8]) -> SiteFile<'a>
        requires { file_rule octets.now ≡ true }
        ensures { result.octets.now ≡ octets.now }
    {
        SiteFile { octets }
    }

    // The records of a kind, as a part of the file.
    #[tactic(auto, unfolding(meaning::specs::File::file_body))]
    pub fn table(self, kind: Kind) -> &'a [u8]
        ensures { result.now ≡ file_body self.entry.octets.now (number_of kind) }
    {
        records::body::<Contents>(self.octets, kind)
    }
}
