// Statuses 3 to 13, a stage a function, each ending in the next. Nothing here reads a key, a counter, the private payload or the tag.
ghost use Rattle.std.specs.Prelude.{◌≡◌, ◌<◌};
ghost use Rattle.meaning.specs.Records.{levels};
ghost use Rattle.meaning.specs.Frame.{cuts_of, view};
ghost use Rattle.meaning.specs.Site.{count_of, tables_of};
ghost use Rattle.meaning.specs.Receive.{
  on_device,
  on_use,
  on_key,
  on_exempt,
  on_policy,
  on_level,
  on_security,
  on_parts,
  on_view,
  judged,
};

use fcs::Table;
use meaning::{Cuts, Header, Judged, Passed, Refusal};
use modes::Level;
use records::{Kind, Settings};
use site::View;

// What the security steps look at: the site, and what is open of a frame.
#[derive(Clone, Copy)]
struct Open<'a> {
    site: View<'a>,
    header: Header,
    aux: &'a [u8],
    opens: &'a [u8],
}

impl Open<'_> {
    // 13: the device, through the key's handles in their order.
    fn on_device(&self, key: usize) -> Judged
        ensures { result ≡ on_device (tables_of self.now.site.octets.now) self.now.header key }
    {
        let peer = search::peer_of(self.site.settings(), self.header.source);
        let handles = self.site.table(Kind::Handles);
        let found = search::handle_row(handles, self.site.table(Kind::Devices), key, peer);
        let handle = found.ok_or(Refusal::UnavailableDevice)?;
        Ok(Passed::Secure {
            key,
            handle,
            device: search::device_of(handles, handle),
        })
    }

    // 12: a usage record of the key.
    #[tactic(auto, using(crate::proofs::Checks::tried), unfolding(meaning::specs::Receive::on_use, meaning::specs::Receive::command_of, meaning::specs::Site::tables_of))]
    fn on_use(&self, key: usize) -> Judged
        ensures { result ≡ on_use (tables_of self.now.site.octets.now) self.now.header self.now.opens.now key }
    {
        let usages = self.site.table(Kind::Usages);
        let found = search::usage_row(usages, key, self.header.kind, octets::octet(self.opens, 0));
        found.ok_or(Refusal::ImproperKeyType)?;
        self.on_device(key)
    }

    // 11: the first lookup record that matches; where none does, nothing further is looked at.
    fn on_key(&self) -> Judged
        ensures { result ≡ on_key (tables_of self.now.site.octets.now) self.now.header self.now.aux.now self.now.opens.now }
    {
        let settings = self.site.settings();
        let peer = search::peer_of(settings, self.header.source);
        let mode = frame::mode_of(self.aux);
        let source = frame::key_source(self.aux, settings, mode);
        let lookups = self.site.table(Kind::Lookups);
        let Some(i) = search::key_row(lookups, mode, frame::key_index(self.aux), source, peer)
        else {
            return Err(Refusal::UnavailableKey);
        };
        self.on_use(search::key_of(lookups, i))
    }

    // Level 0 with override: the source's device among all must be exempt.
    fn on_exempt(&self) -> Judged
        ensures { result ≡ on_exempt (tables_of self.now.site.octets.now) self.now.header }
    {
        let peer = search::peer_of(self.site.settings(), self.header.source);
        let devices = self.site.table(Kind::Devices);
        let found = search::device_row(devices, peer);
        let d = found.ok_or(Refusal::UnavailableDevice)?;
        let device = search::device_at(devices, d);
        if device.exempt != 1 {
            return Err(Refusal::ImproperSecurityLevel);
        }
        Ok(Passed::Plain)
    }

    // 10: the policy of level record i; level 0 succeeds.
    #[tactic(auto, using(crate::proofs::Checks::placed), unfolding(meaning::specs::Receive::on_policy, meaning::specs::Receive::check, meaning::specs::Receive::split, meaning::specs::Site::tables_of))]
    fn on_policy(&self, i: usize) -> Judged
        requires { i < count_of self.now.site.octets.now levels }
        ensures { result ≡ on_policy (tables_of self.now.site.octets.now) self.now.header self.now.aux.now self.now.opens.now i }
    {
        let levels = self.site.table(Kind::Levels);
        let level = frame::level_of(self.aux);
        if search::passes(levels, i, level) {
            if level == Level::NONE {
                Ok(Passed::Plain)
            } else {
                self.on_key()
            }
        } else if level == Level::NONE && search::overrides(levels, i) {
            self.on_exempt()
        } else {
            Err(Refusal::ImproperSecurityLevel)
        }
    }

    // 9: the level record.
    #[tactic(auto, using(crate::proofs::Checks::tried), unfolding(meaning::specs::Receive::on_level, meaning::specs::Receive::command_of, meaning::specs::Site::tables_of))]
    fn on_level(&self) -> Judged
        ensures { result ≡ on_level (tables_of self.now.site.octets.now) self.now.header self.now.aux.now self.now.opens.now }
    {
        let levels = self.site.table(Kind::Levels);
        let found = search::level_row(levels, self.header.kind, octets::octet(self.opens, 0));
        let i = found.ok_or(Refusal::UnavailableSecurityLevel)?;
        self.on_policy(i)
    }

    // 8; with security disabled, success.
    #[tactic(auto, unfolding(meaning::specs::Receive::on_security, meaning::specs::Receive::check, meaning::specs::Receive::split, meaning::specs::Site::tables_of))]
    fn on_security(&self) -> Judged
        ensures { result ≡ on_security (tables_of self.now.site.octets.now) self.now.header self.now.aux.now self.now.opens.now }
    {
        let level = frame::level_of(self.aux);
        if self.header.security == 1 && level == Level::NONE {
            return Err(Refusal::UnsupportedSecurity);
        }
        let settings = Settings {
            octets: self.site.settings(),
        };
        if settings.security_on() {
            return self.on_level();
        }
        if level != Level::NONE {
            return Err(Refusal::UnsupportedSecurity);
        }
        Ok(Passed::Plain)
    }
}

// 7, and 5 of security header and payload.
#[tactic(auto, using(crate::proofs::Bodies::divided), unfolding(meaning::specs::Receive::on_parts, meaning::specs::Receive::check, meaning::specs::Frame::bodied))]
fn on_parts(site: View, body: &[u8], c: Cuts, h: Header) -> Judged
    requires c_value { c ≡ cuts_of body.now }
    requires h_value { h ≡ (view body.now).header }
    ensures { result ≡ on_parts (tables_of site.entry.octets.now) (view body.now) }
{
    // security in a version that does not know it
    if h.security == 1 && h.version == 0 {
        return Err(Refusal::UnsupportedLegacy);
    }
    if !frame::body_fits(c, frame::level_in(body, c), body.len()) {
        return Err(Refusal::Malformed);
    }
    let opens = frame::part_of(body, c.head + c.aux, c.opens);
    if !frame::pending_right(h.kind, opens) {
        return Err(Refusal::Malformed);
    }
    let open = Open {
        site,
        header: h,
        aux: frame::part_of(body, c.head, c.aux),
        opens,
    };
    open.on_security()
}

// 5 of the header, and 6; an acknowledgment succeeds.
#[tactic(auto, using(crate::proofs::Bodies::divided), unfolding(meaning::specs::Receive::on_view, meaning::specs::Receive::check, meaning::specs::Receive::split, meaning::specs::Site::tables_of))]
fn on_body(site: View, body: &[u8]) -> Judged
    ensures { result ≡ on_view (tables_of site.entry.octets.now) (view body.now) }
{
    let c = frame::cuts(body);
    let h = frame::read_header(frame::part_of(body, 0, c.head));
    if !frame::header_right(c, h, body.len()) {
        return Err(Refusal::Malformed);
    }
    if frame::cause(site.settings(), h) != 0 {
        return Err(Refusal::Filtered);
    }
    if h.kind == 2 {
        return Ok(Passed::Plain);
    }
    on_parts(site, body, c, h)
}

// 3, 4, and the stages after them. Lends the FCS table.
#[tactic(auto, unfolding(meaning::specs::Receive::judged, meaning::specs::Receive::judge, meaning::specs::Receive::check))]
pub fn judge(table: &Table, site: View, frame: &[u8]) -> Judged
    ensures { result ≡ judged (tables_of site.entry.octets.now) frame.now }
{
    if frame.len() < 5 || 127 < frame.len() {
        return Err(Refusal::Length);
    }
    if !table.right(frame) {
        return Err(Refusal::Fcs);
    }
    on_body(site, crate::body_of(frame))
}
