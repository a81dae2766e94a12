// The statuses' names.
ghost use Rattle.std.specs.Prelude.{◌≡◌, ◌<◌, length};
ghost use Rattle.meaning.specs.Status.{number, status};
ghost use Rattle.lines.specs.Text.{Named, name_of};

use meaning::Refusal;

// The name of an answer's status.
pub fn name(answer: Result<(), Refusal>) -> &'static [u8]
    ensures { Named (status answer) result.now }
{
    match answer {
        Ok(_) => b"SUCCESS",
        Err(refusal) => name_of(refusal),
    }
}

// The name of a refusal's status.
fn name_of(refusal: Refusal) -> &'static [u8]
    ensures text { result.now ≡ name_of (number refusal) }
    ensures short { length result.now < 32 }
{
    match refusal {
        Refusal::Site => b"SITE",
        Refusal::Room => b"ROOM",
        Refusal::Length => b"LENGTH",
        Refusal::Fcs => b"FCS",
        Refusal::Malformed => b"MALFORMED",
        Refusal::Filtered => b"FILTERED",
        Refusal::UnsupportedLegacy => b"UNSUPPORTED_LEGACY",
        Refusal::UnsupportedSecurity => b"UNSUPPORTED_SECURITY",
        Refusal::UnavailableSecurityLevel => b"UNAVAILABLE_SECURITY_LEVEL",
        Refusal::ImproperSecurityLevel => b"IMPROPER_SECURITY_LEVEL",
        Refusal::UnavailableKey => b"UNAVAILABLE_KEY",
        Refusal::ImproperKeyType => b"IMPROPER_KEY_TYPE",
        Refusal::UnavailableDevice => b"UNAVAILABLE_DEVICE",
        Refusal::CounterError => b"COUNTER_ERROR",
        Refusal::SecurityError => b"SECURITY_ERROR",
        Refusal::FrameTooLong => b"FRAME_TOO_LONG",
        Refusal::InvalidParameter => b"INVALID_PARAMETER",
    }
}
