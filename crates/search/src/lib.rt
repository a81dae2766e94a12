// The searches of 'The security steps': the first record that fits, in the order of its table. Each takes the body of its own kind, whole records and no more, and changes nothing.
// Records are read by number and place, as the definitions number them: `key_of`, `passes`, `overrides` and `device_of` take a number, and `chunks_exact` would be a second form beside it.
// Clients cite specs/Steps.antt of the meaning; key_row_by is of specs/Rows.antt here.
#![tactic(auto)]

mod handles;
mod keys;
mod levels;
mod peers;

pub use handles::{device_of, handle_row};
pub use keys::{key_of, key_row, lookup_row, usage_row};
pub use levels::{level_row, overrides, passes};
pub use peers::{device_row, is_peer, peer_of, stand_in};
pub use records::device_at;
