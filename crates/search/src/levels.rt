// Level records: the first of a type, its policy and its override.
ghost use Rattle.std.specs.Prelude.{◌≡◌, ◌+◌, ◌*◌, ◌/◌, ◌%◌, ◌^◌, ◌≤◌, ◌<◌, length, eqb};
ghost use Rattle.meaning.specs.Records.{records};
ghost use Rattle.meaning.specs.Steps.{fits, level_row, passes, overrides};

use modes::Level;
use records::LEVEL_LEN;

// The type stands at the place, and for type 3 the command after it. The two stay numbers, apart: so `fits`, `level_row` and `usage_row` take them.
#[tactic(auto, unfolding(meaning::specs::Steps::fits))]
pub fn fits_at(table: &[u8], at: usize, kind: u8, command: u8) -> bool
    requires { at + 2 ≤ length table.now }
    ensures { result ≡ fits table.now at kind command }
{
    table[at] == kind && (kind != 3 || table[at + 1] == command)
}

// The first level record of the type, and for type 3 of the command.
pub fn level_row(levels: &[u8], kind: u8, command: u8) -> Option<usize>
    ensures { result ≡ level_row levels.now kind command }
{
    (0..levels.len() / LEVEL_LEN).find(|&i| fits_at(levels, LEVEL_LEN * i, kind, command))
}

// The level's bit is set.
fn allowed(set: u8, level: Level) -> bool
    requires { level.0 < 8 }
    ensures { result ≡ eqb (set / 2 ^ level.0 % 2) 1 }
{
    (set >> level.0) % 2 == 1
}

// Level record i lets the level pass: by its minimum where it has no list, else by its list.
#[tactic(auto, unfolding(meaning::specs::Steps::passes))]
pub fn passes(levels: &[u8], i: usize, level: Level) -> bool
    requires { (i < records 5 levels.now) × (level.0 < 8) }
    ensures { result ≡ passes levels.now i level.0 }
{
    match levels[LEVEL_LEN * i + 4] {
        0 => level.at_least(Level(levels[LEVEL_LEN * i + 2])),
        set => allowed(set, level),
    }
}

// Level record i lets devices override its minimum.
#[tactic(auto, unfolding(meaning::specs::Steps::overrides))]
pub fn overrides(levels: &[u8], i: usize) -> bool
    requires { i < records 5 levels.now }
    ensures { result ≡ overrides levels.now i }
{
    levels[LEVEL_LEN * i + 3] == 1
}
