// The lines of the log, put one behind the other by a writer. specs/Text.antt has the lines.
#![tactic(auto)]

mod names;

ghost use Rattle.std.specs.Prelude.{◌≡◌, ◌+◌, ◌%◌, ◌<◌, length};
ghost use Rattle.meaning.specs.Status.{status};
ghost use Rattle.octets.specs.Writing.{Room, Over};
ghost use Rattle.lines.specs.Text.{Put, decimal, heading, line_of, cut_line, site_line};

use meaning::Refusal;
pub use names::name;
use octets::Writer;

// Puts a number, in decimal: its digits are made from the last on, and put at once. There are 20 at most.
// By octets and not by `write!` and `Display`, which may answer an error: a line cannot fail.
fn put_decimal(w: &mut Writer, n: u64)
    requires { Room w.old (length (decimal n)) }
    ensures { Over w.old w.old.at (decimal n) w.new }
{
    let mut digits = [0u8; 20];
    let mut left = n;
    for k in 0..20 {
        let at = 19 - k;
        if left < 10 {
            digits[at] = digit(left);
            return w.all(&digits[at..]);
        }
        digits[at] = digit(left % 10);
        left /= 10;
    }
}

fn digit(n: u64) -> u8
    requires { n < 10 }
    ensures { result ≡ 48 + n }
{
    48 + n as u8
}

// Puts the heading.
pub fn heading(w: &mut Writer)
    requires { Room w.old 20 }
    ensures same_reference { w.new.out.ghost_name ≡ w.old.out.ghost_name }
    ensures put { Put w.old.out.now w.old.at heading w.new.out.now w.new.at }
{
    w.all(b"frame status octets\n");
}

// Puts the line that says that the input was cut.
pub fn cut(w: &mut Writer)
    requires { Room w.old 4 }
    ensures same_reference { w.new.out.ghost_name ≡ w.old.out.ghost_name }
    ensures put { Put w.old.out.now w.old.at cut_line w.new.out.now w.new.at }
{
    w.all(b"CUT\n");
}

// Puts the line that says that the site is too long.
pub fn site(w: &mut Writer)
    requires { Room w.old 5 }
    ensures same_reference { w.new.out.ghost_name ≡ w.old.out.ghost_name }
    ensures put { Put w.old.out.now w.old.at site_line w.new.out.now w.new.at }
{
    w.all(b"SITE\n");
}

// Puts a frame's line: its number, its status by name, and how many private octets it has.
// Status and octets come apart, since `line_of` says any status beside any number of octets.
pub fn line(w: &mut Writer, number: u64, answer: Result<(), Refusal>, octets: u64)
    requires { Room w.old 80 }
    ensures same_reference { w.new.out.ghost_name ≡ w.old.out.ghost_name }
    ensures put { Put w.old.out.now w.old.at (line_of number (status answer) octets) w.new.out.now w.new.at }
{
    put_decimal(w, number);
    w.octet(b' ');
    w.all(name(answer));
    w.octet(b' ');
    put_decimal(w, octets);
    w.octet(b'\n');
}
