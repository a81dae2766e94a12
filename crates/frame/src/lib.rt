// Dividing a frame (standard 5.2, 7.4), its header and security header, and the filter.
// No function changes what it is lent; reading past the end of a slice gives 0, as the definitions say.
// Clients cite specs/Frame.antt, Filter.antt and Steps.antt of the meaning; divided, cuts_in and open_payload are of specs/Parts.antt here.
#![tactic(auto)]

mod control;
mod division;
mod filter;
mod header;
mod parts;
mod security;

pub use division::{body_fits, cuts, level_in, open_len, pending_right};
pub use filter::cause;
pub use header::{header_right, read_header, shape_right};
pub use parts::{divided, divides, open_payload};
pub use records::part_of;
pub use security::{
    counter_of, key_id_len, key_index, key_source, key_source_len, level_of, mode_of,
    source_compared,
};

// The octets of the shortest and of the longest frame, with its FCS.
pub const MIN_LEN: usize = 5;

pub const MAX_LEN: usize = 127;
