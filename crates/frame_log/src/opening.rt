// Says how the input begins, and loads its site.
ghost use Rattle.std.specs.Prelude.{◌≡◌, false, IfSome};
ghost use Rattle.meaning.specs.Site.{site_rule};
ghost use Rattle.meaning.specs.Loading.{empty_site};
ghost use Rattle.frame_log.specs.Opening.{opening_of, Opened};
ghost use Rattle.frame_log.specs.Buffers.{kept};

use site::Site;

// Why no site can be loaded: the input is cut, or its site file is too long.
#[derive(Clone, Copy)]
pub enum Fault {
    Cut,
    Long,
}

// How many octets the site file has that the input begins with.
#[tactic(auto, using(meaning::proofs::Tests::tests), unfolding(crate::specs::Opening::opening_of, crate::specs::Opening::opening_sized, meaning::specs::File::file_most, meaning::specs::Records::start_by, meaning::specs::Records::width_of, meaning::specs::Records::limit_of))]
pub fn beginning(hand: &[u8]) -> Result<usize, Fault>
    ensures { result ≡ opening_of hand.now }
{
    if hand.len() < 2 {
        return Err(Fault::Cut);
    }
    let n = octets::whole::<u16>(hand, 0) as usize;
    if file::FILE_MOST < n {
        return Err(Fault::Long);
    }
    if hand.len() - 2 < n {
        return Err(Fault::Cut);
    }
    Ok(n)
}

// Loads a site file into zeros, and tells whether the file keeps its rules: then the site does, and else the zeros stay, which are no site.
// A truth and no `Option<Site>`: that would not say what is left of the octets where there is no site.
pub fn open_site(file: &[u8], octets: &mut [u8]) -> bool
    requires { octets.old ≡ empty_site }
    ensures { Opened file.now result octets.new }
{
    load::load(file, octets).is_ok()
}

// The site that the octets are, if they keep its rules.
pub fn site_in<'a>(octets: &'a mut [u8], ok: bool) -> Option<Site<'a>>
    requires ok { ok ≡ site_rule octets.old }
    requires zeros { ok ≡ false → octets.old ≡ empty_site }
    ensures same_reference { IfSome result (λ s. s.octets.ghost_name ≡ octets.entry.ghost_name) }
    ensures site { kept result ≡ octets.old }
{
    if ok { Some(Site::new(octets)) } else { None }
}
