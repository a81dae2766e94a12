// What is asked for: its rules (status 17) and the length of its frame.
ghost use Rattle.std.specs.Prelude.{◌≡◌, leb};
ghost use Rattle.meaning.specs.Build.{payloads_right, request_right, frame_len};

use crate::header::header_by;
use crate::lengths::{aux_len, head_len};
use crate::rules::{fields_right, source_right};
use meaning::Request;
use modes::Level;
use records::Settings;

// A request with its two payloads. What may not change: `build` and `build_valid` take the three apart, as `export` has them from C.
#[derive(Clone, Copy)]
pub struct Order<'a> {
    pub q: Request,
    pub opens: &'a [u8],
    pub private: &'a [u8],
}

impl<'a> Order<'a> {
    // The open payload is exactly its type's, and an acknowledgment has no payload at all.
    #[tactic(auto, unfolding(meaning::specs::Build::payloads_right))]
    pub fn payloads_right(&self) -> bool
        ensures { result ≡ payloads_right self.now.q.kind self.now.opens.now self.now.private.now }
    {
        frame::open_len(self.opens, self.q.kind) == self.opens.len()
            && frame::pending_right(self.q.kind, self.opens)
            && (self.q.kind != 2 || self.private.is_empty())
    }

    // The request breaks no rule.
    #[tactic(auto, unfolding(meaning::specs::Build::request_right))]
    pub fn right(&self, settings: Settings) -> bool
        ensures { result ≡ request_right settings.entry.octets.now self.now.q self.now.opens.now self.now.private.now }
    {
        fields_right(self.q)
            && source_right(settings, self.q.srcmode)
            && frame::shape_right(header_by(settings, self.q), 3)
            && self.payloads_right()
    }

    // The frame has at most 127 octets with its FCS.
    #[tactic(auto, using(crate::proofs::Sizes::sizes))]
    pub fn fits(&self, settings: Settings) -> bool
        ensures { result ≡ leb (frame_len settings.entry.octets.now self.now.q self.now.opens.now self.now.private.now) 127 }
    {
        let opens = self.opens.len();
        let private = self.private.len();
        if 127 < opens || 127 < private {
            return false;
        }
        let parts = head_len(header_by(settings, self.q)) + aux_len(self.q) + opens + private;
        parts + Level(self.q.level).tag_len() + 2 <= 127
    }
}
