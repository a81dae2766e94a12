// Builds a frame by a request, secured where its level is above 0, and raises the own counter of the site for a secured one.
// Clients cite `built` and `built_valid` of the meaning's Build.
#![tactic(auto)]

mod decision;
mod frames;
mod header;
mod lengths;
mod order;
mod put;
mod rules;

ghost use Rattle.std.specs.Prelude.{◌≡◌, ◌<◌, ℕ, true, Option, is_some};
ghost use Rattle.meaning.specs.Site.{store_of};
ghost use Rattle.meaning.specs.Build.{with_fcs, built_of, construction, built, built_valid};
ghost use Rattle.builder.specs.Decided.{decided_at, body_by};
ghost use Rattle.builder.specs.Stored.{Laid};

use aes::Cipher;
use ccm::Keyed;
use decision::decide;
use frames::Draft;
use meaning::{Refusal, Request};
use modes::Level;
use order::Order;
use records::{Kind, Settings};
use site::{Site, View};

// What becomes of a request, by the site's own tables; nothing is written.
#[tactic(auto, unfolding(crate::specs::Decided::decided_at))]
fn decide_at(site: View, order: Order) -> Result<Option<usize>, Refusal>
    ensures decided { result ≡ decided_at site.entry.octets.now order.entry.q order.entry.opens.now order.entry.private.now }
    ensures own_below { (key : Option ℕ) → result ≡ Ok key → is_some key ≡ true → (store_of site.entry.octets.now).own < 4294967295 }
{
    decide(
        Settings {
            octets: site.settings(),
        },
        site.table(Kind::Lookups),
        site.own_counter(),
        order,
    )
}

// Writes the frame that was decided on: with a key, under it and with the own counter.
fn lay(
    table: &fcs::Table,
    site: View,
    order: Order,
    key: Option<usize>,
    out: &mut [u8; 127],
) -> usize
    requires { decided_at site.octets.now order.q order.opens.now order.private.now ≡ Ok key }
    ensures { Laid out.old (with_fcs (body_by site.entry.octets.now order.entry.q order.entry.opens.now order.entry.private.now key)) result out.new }
{
    let settings = Settings {
        octets: site.settings(),
    };
    let draft = Draft::new(settings, order);
    match key {
        None => draft.put_plain(table, out),
        Some(k) => {
            let counter = site.own_counter();
            let level = Level(order.q.level);
            let keyed = Keyed {
                cipher: &Cipher::new(&site.key_of(k)),
                nonce: ccm::nonce(settings.extended_address(), counter, level),
                level,
            };
            draft.put_secured(table, &keyed, counter, out)
        }
    }
}

// Builds on a site that keeps its rules: refuses, and then changes nothing lent, or writes the frame in front of `out`, and for a secured one raises the own counter.
// Answers how long the frame is.
pub fn build_valid(
    table: &fcs::Table,
    site: &mut Site,
    q: Request,
    opens: &[u8],
    private: &[u8],
    out: &mut [u8],
) -> Result<usize, Refusal>
    ensures same_reference { site.new.octets.ghost_name ≡ site.old.octets.ghost_name }
    ensures built { construction (built_of result) site.new.octets.now out.new ≡ built_valid site.old.octets.now q opens.now private.now out.old }
{
    let order = Order { q, opens, private };
    let view = site.view();
    let Some(front) = out.first_chunk_mut::<127>() else {
        return Err(Refusal::Room);
    };
    let key = decide_at(view, order)?;
    let n = lay(table, view, order, key, front);
    if key.is_some() {
        site.raise_own();
    }
    Ok(n)
}

// Builds a frame: refuses, and then changes nothing lent, or writes it in front of `out`, and for a secured one raises the own counter of the site.
// Answers how long the frame is.
pub fn build(
    site: &mut [u8],
    q: Request,
    opens: &[u8],
    private: &[u8],
    out: &mut [u8],
) -> Result<usize, Refusal>
    ensures { construction (built_of result) site.new out.new ≡ built site.old q opens.now private.now out.old }
{
    if !site::site_holds(site) {
        return Err(Refusal::Site);
    }
    build_valid(
        &fcs::Table::new(),
        &mut Site::new(site),
        q,
        opens,
        private,
        out,
    )
}
