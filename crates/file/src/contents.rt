// The table of contents: its entries, its rules, and where the bodies lie.
ghost use Rattle.std.specs.Prelude.{◌≡◌, ◌≤◌, length};
ghost use Rattle.std.proofs.Common.{lit<};
ghost use Rattle.meaning.specs.Records.{settings, least_of};
ghost use Rattle.meaning.specs.File.{contents_len, file_count, file_place, start_of, entry_right, contents_right};
ghost use Rattle.meaning.proofs.Files.{contents-inside, contents-least};
ghost use Rattle.records.specs.Kinds.{number_of};

use records::{Kind, Layout};

// An entry: kind 1, record length 1, count 2, offset 2.
const ENTRY_LEN: usize = 6;

const CONTENTS_LEN: usize = ENTRY_LEN * Kind::ALL.len();

// The most octets of a file.
pub const FILE_MOST: usize = CONTENTS_LEN + records::TABLES_LEN;

// The layout of a site file: counts and offsets stand in the table of contents.
pub struct Contents;

impl Layout for Contents {
    ghost right = { contents_right };

    ghost count = { file_count };

    ghost place = { file_place };

    ghost inside = { λ s k h l. contents-inside s h k l };

    ghost settled = { λ s h. unfold least_of in contents-least s h settings (lit< tt) };

    // The seven entries are right, and the bodies are all that follows them.
    fn right(file: &[u8]) -> bool {
        if file.len() < CONTENTS_LEN {
            return false;
        }
        let mut start = CONTENTS_LEN;
        // By reference: a copy of the seven would be read at each turn, and the turns not be unrolled.
        for kind in &Kind::ALL {
            if !entry_right(file, *kind, start) {
                return false;
            }
            start += kind.size(Contents::count(file, *kind)) as usize;
        }
        file.len() == start
    }

    #[tactic(auto, unfolding(meaning::specs::File::file_count))]
    fn count(file: &[u8], kind: Kind) -> u16 {
        octets::number::<u16>(file, ENTRY_LEN * (kind as usize) + 2)
    }

    #[tactic(auto, unfolding(meaning::specs::File::file_place))]
    fn place(file: &[u8], kind: Kind) -> usize {
        octets::number::<u16>(file, ENTRY_LEN * (kind as usize) + 4) as usize
    }
}

// One entry of the table of contents is right, where all before its body is so long.
#[tactic(auto, unfolding(meaning::specs::File::entry_right))]
fn entry_right(file: &[u8], kind: Kind, start: usize) -> bool
    requires room { contents_len ≤ length file.now }
    requires before { start ≡ start_of file.now (number_of kind) }
    ensures { result ≡ entry_right file.now (number_of kind) }
{
    let at = ENTRY_LEN * (kind as usize);
    file[at] as usize == kind as usize + 1
        && file[at + 1] as usize == kind.width()
        && kind.count_right(Contents::count(file, kind) as usize)
        && Contents::place(file, kind) == start
}
