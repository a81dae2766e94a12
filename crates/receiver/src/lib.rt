// Receiving a frame. Everything before the last step works on what is lent to be read; nothing is deciphered into lent memory
// before the tag is known, and the counter is raised only with an accepted frame.
#![tactic(auto)]

mod division;
mod stages;

ghost use Rattle.std.specs.Prelude.{◌≡◌, ℕ, ◌≤◌, ◌<◌, length};
ghost use Rattle.meaning.specs.Records.{devices, keys};
ghost use Rattle.meaning.specs.Fcs.{inner};
ghost use Rattle.meaning.specs.Frame.{view, level_of};
ghost use Rattle.meaning.specs.Site.{count_of};
ghost use Rattle.meaning.specs.Receive.{answer_of, outcome, received_valid, received};
ghost use Rattle.receiver.specs.Parts.{Plainly, committed, settled};

use aes::Cipher;
use division::Divided;
use fcs::Table;
use meaning::Passed;
pub use meaning::{Accepted, Refusal};
use site::Site;

// A frame without its FCS.
#[tactic(auto, unfolding(meaning::specs::Fcs::inner))]
pub fn body_of(frame: &[u8]) -> &[u8]
    requires { 2 ≤ length frame.now }
    ensures { result.now ≡ inner frame.now }
{
    &frame[..frame.len() - 2]
}

// A frame without security: its private payload goes to the front of the output, whose later octets stay.
fn accept_plain(body: Divided, out: &mut [u8; 127]) -> Accepted
    requires { level_of (view body.octets.now).aux ≡ 0 }
    ensures { Plainly body.entry.octets.now out.old (answer_of (Ok result)) out.new }
{
    octets::copy_in(out, 0, body.private());
    body.accepted(0)
}

// The only place where a secured frame changes anything: the output's front, and the device's counter.
// Six parameters: a struct of any of them would be made here alone, and be no plainer.
fn commit(
    site: &mut Site,
    body: Divided,
    out: &mut [u8; 127],
    scratch: &[u8; 127],
    device: usize,
    counter: u32,
) -> Accepted
    requires device_bound { device < count_of site.old.octets.now devices }
    requires counter_bound { counter < 4294967295 }
    ensures same_reference { site.new.octets.ghost_name ≡ site.old.octets.ghost_name }
    ensures outcome { outcome (answer_of (Ok result)) site.new.octets.now out.new ≡ committed site.old.octets.now body.entry.octets.now out.old scratch.now device counter }
{
    // an answer's device counts from 1, with 0 for none, as `report` does; an Option would be counted up again wherever it is told
    let answer = body.accepted(device + 1);
    octets::copy_in(out, 0, frame::part_of(scratch, 0, answer.private));
    site.raise_device(device, counter);
    answer
}

// The last two checks, COUNTER_ERROR (14) and SECURITY_ERROR (15): the tag is known before anything lent is written.
// Key and device stay numbers with clauses, here and in `commit`: their bounds are by the site that is lent, and a type would have to name it.
// The promise holds of any handle: the key gives the cipher, and the device the counter and the address.
fn settle(
    site: &mut Site,
    body: Divided,
    out: &mut [u8; 127],
    key: usize,
    device: usize,
) -> Result<Accepted, Refusal>
    requires key_bound { key < count_of site.old.octets.now keys }
    requires device_bound { device < count_of site.old.octets.now devices }
    ensures same_reference { site.new.octets.ghost_name ≡ site.old.octets.ghost_name }
    ensures outcome { (handle : ℕ) → outcome (answer_of result) site.new.octets.now out.new ≡ settled site.old.octets.now body.entry.octets.now out.old (Ok (Passed.Secure key handle device)) }
{
    let counter = body.counter();
    let view = site.view();
    if counter == u32::MAX || counter < view.device_counter(device) {
        return Err(Refusal::CounterError);
    }
    let cipher = Cipher::new(&view.key_of(key));
    let nonce = body.nonce(view.device_extended(device));
    let mut scratch = [0u8; 127];
    let right = body.unseal(&cipher, nonce, &mut scratch);
    if !right {
        return Err(Refusal::SecurityError);
    }
    Ok(commit(site, body, out, &scratch, device, counter))
}

// Receives a frame on a site that holds its rules, with the FCS's table lent: 2 for want of room, then by the judgment on the frame.
// The answer, and what the site and the output then hold.
pub fn receive_valid(
    table: &Table,
    site: &mut Site,
    frame: &[u8],
    out: &mut [u8],
) -> Result<Accepted, Refusal>
    ensures same_reference { site.new.octets.ghost_name ≡ site.old.octets.ghost_name }
    ensures outcome { outcome (answer_of result) site.new.octets.now out.new ≡ received_valid site.old.octets.now frame.now out.old }
{
    let Some(front) = out.first_chunk_mut::<127>() else {
        return Err(Refusal::Room);
    };
    let passed = stages::judge(table, site.view(), frame)?;
    let body = Divided::new(frame);
    match passed {
        Passed::Plain => Ok(accept_plain(body, front)),
        Passed::Secure { key, device, .. } => settle(site, body, front, key, device),
    }
}

// Receives a frame: any site, frame and output, of any content and length. A refusal returns its number and zero elsewhere, and
// changes nothing lent. A success puts the plain private payload to the front of the output and, if secured, raises the device's counter.
#[tactic(auto, unfolding(meaning::specs::Receive::received))]
pub fn receive(site: &mut [u8], frame: &[u8], out: &mut [u8]) -> Result<Accepted, Refusal>
    ensures { outcome (answer_of result) site.new out.new ≡ received site.old frame.now out.old }
{
    if !site::site_holds(site) {
        return Err(Refusal::Site);
    }
    receive_valid(&Table::new(), &mut Site::new(site), frame, out)
}
