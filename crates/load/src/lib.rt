// Loading a site file into a site: the only bridge between the two.
// Clients cite `loaded` and `site_from` of the meaning's Loading, and the laws of its proofs/Bridges.antt.
#![tactic(auto)]

ghost use Rattle.std.specs.Prelude.{◌≡◌, length};
ghost use Rattle.meaning.specs.File.{file_body};
ghost use Rattle.meaning.specs.Site.{site_len};
ghost use Rattle.meaning.specs.Status.{status};
ghost use Rattle.meaning.specs.Loading.{with_body, site_from, bridged, loaded};
ghost use Rattle.records.specs.Kinds.{number_of};

use file::SiteFile;
pub use meaning::Refusal;
use records::Kind;

// The count of a kind and its records, from a file into a site; all other octets stay.
fn put_table(file: SiteFile, site: &mut [u8], kind: Kind)
    requires { length site.old ≡ site_len }
    ensures { site.new ≡ with_body site.old (number_of kind) (file_body file.entry.octets.now (number_of kind)) }
{
    octets::put(site, 2 * (kind as usize), file::count(file.octets, kind));
    octets::copy_in(site, site::place(kind), file.table(kind));
}

// All seven kinds, and zeros elsewhere.
fn fill(file: SiteFile, site: &mut [u8])
    requires { length site.old ≡ site_len }
    ensures { site.new ≡ site_from file.entry.octets.now }
{
    site.fill(0);
    for kind in &Kind::ALL {
        put_table(file, site, *kind);
    }
}

// Loads a file into a site, any octets of any length: then the site is the one that the file makes. A refusal changes nothing.
pub fn load(file: &[u8], site: &mut [u8]) -> Result<(), Refusal>
    ensures { bridged (status result) site.new ≡ loaded file.now site.old }
{
    if !file::file_holds(file) {
        return Err(Refusal::Site);
    }
    if site.len() != site::SITE_LEN {
        return Err(Refusal::Room);
    }
    fill(SiteFile::new(file), site);
    Ok(())
}
