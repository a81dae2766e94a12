// Answers the frames at hand, a batch between a read and a write.
ghost use Rattle.std.specs.Prelude.{◌≡◌, ◌+◌, ◌<◌, ◌≤◌, length, replicate, IfSome};
ghost use Rattle.frame_log.specs.Buffers.{whole_len, next_len, kept, SameSite, Answered, Stepped, Batched, Ended};

use fcs::Table;
use meaning::Refusal;
use octets::Writer;
use site::Site;

// What frames are answered by, one after the other: the FCS's table, made once, the site if it keeps its rules, and the output.
#[derive(Drop)]
pub struct Gate<'a> {
    pub table: Table,
    pub site: Option<Site<'a>>,
    pub out: [u8; 127],
}

// The next frame's number, and how many octets at hand are taken.
#[derive(Drop)]
pub struct Progress {
    pub number: u64,
    pub taken: usize,
}

// How many octets the frame at hand has, if it is whole.
#[tactic(auto, unfolding(crate::specs::Buffers::whole_len))]
fn whole_len(hand: &[u8]) -> Option<usize>
    ensures len { result ≡ whole_len hand.now }
    ensures whole { IfSome result (λ n. n + 1 ≤ length hand.now) }
{
    let (n, rest) = hand.split_first()?;
    let n = *n as usize;
    (n <= rest.len()).then_some(n)
}

// The same of the frame that is answered next: none where its line has no room, or it has no number.
#[tactic(auto, unfolding(crate::specs::Buffers::next_len))]
fn next_len(number: u64, room: usize, hand: &[u8]) -> Option<usize>
    ensures len { result ≡ next_len number room hand.now }
    ensures whole { IfSome result (λ n. (number < 18446744073709551615) × (80 ≤ room) × (n + 1 ≤ length hand.now)) }
{
    if number < u64::MAX && 80 <= room {
        whole_len(hand)
    } else {
        None
    }
}

impl<'a> Gate<'a> {
    // The output starts as zeros.
    pub fn new(site: Option<Site<'a>>) -> Gate<'a>
        ensures same_site { SameSite site.entry result.site }
        ensures site { kept result.site ≡ kept site.entry }
        ensures out { result.out ≡ replicate 127 0 }
    {
        Gate {
            table: Table::new(),
            site,
            out: [0; 127],
        }
    }

    // How many private octets an accepted frame has, or why it is refused: for its site where none keeps its rules.
    fn answer(&mut self, frame: &[u8]) -> Result<usize, Refusal>
        ensures same_site { SameSite self.old.site self.new.site }
        ensures answered { Answered (kept self.old.site) frame.now self.old.out result (kept self.new.site) self.new.out }
    {
        let Some(site) = &mut self.site else {
            return Err(Refusal::Site);
        };
        let answer = receiver::receive_valid(&self.table, site, frame, &mut self.out)?;
        Ok(answer.private)
    }

    // Answers a frame, and writes its line.
    fn step(&mut self, frame: &[u8], number: u64, text: &mut Writer)
        requires { text.old.at + 80 ≤ length text.old.out.now }
        ensures same_site { SameSite self.old.site self.new.site }
        ensures same_reference { text.new.out.ghost_name ≡ text.old.out.ghost_name }
        ensures stepped { Stepped (kept self.old.site) frame.now self.old.out number text.old.out.now text.old.at (kept self.new.site) self.new.out text.new.out.now text.new.at }
    {
        let answer = self.answer(frame);
        lines::line(text, number, answer.map(|_| ()), answer.unwrap_or(0) as u64);
    }

    // Answers the whole frames at hand, one after the other, as long as the text has room; their lines stand in the text from its start on.
    // Each takes an octet or more. Where none is answered, fewer than 256 octets are at hand.
    pub fn batch(&mut self, first: u64, hand: &[u8], text: &mut Writer) -> Progress
        requires { text.old.at ≡ 0 }
        ensures same_site { SameSite self.old.site self.new.site }
        ensures same_reference { text.new.out.ghost_name ≡ text.old.out.ghost_name }
        ensures batched { Batched (kept self.old.site) self.old.out first hand.now text.old.out.now (kept self.new.site) self.new.out text.new.out.now text.new.at result }
        ensures paced { result.number ≤ first + result.taken }
        ensures short { result.taken ≡ 0 → 80 ≤ length text.old.out.now → first < 18446744073709551615 → length hand.now < 256 }
    {
        let mut number = first;
        // A place and no slice that shrinks: the count taken is part of the answer.
        let mut taken: usize = 0;
        while let Some(n) = next_len(number, text.room(), &hand[taken..]) {
            let start = taken + 1;
            self.step(&hand[start..start + n], number, text);
            number += 1;
            taken = start + n;
        }
        Progress { number, taken }
    }
}

// Writes the line for octets that are left at the end of the input.
pub fn finish(hand: &[u8], text: &mut Writer)
    requires { (text.old.at ≡ 0) × (4 ≤ length text.old.out.now) }
    ensures same_reference { text.new.out.ghost_name ≡ text.old.out.ghost_name }
    ensures ended { Ended hand.now text.new.out.now text.new.at }
{
    if !hand.is_empty() {
        lines::cut(text);
    }
}
