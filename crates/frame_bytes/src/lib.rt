//! Frames as bytes, and frames out of a stream of bytes that comes in any pieces.
#![tactic(auto)]

mod call_reading;
mod encoding;
mod fault;
mod fields;
mod frame_reading;
mod joiner;
mod laws;
mod lengths;
mod limits;
mod many;
mod reply_reading;
mod splitting;
mod writing;

pub use encoding::encode;
pub use fault::FrameFault;
pub use fields::Read;
pub use frame_reading::read_asked;
pub use joiner::Joiner;
pub use laws::{a_stream_has_one_reading, no_spelling_begins_another, pieces_do_not_matter};
pub use limits::{has_room_to_go_on, is_within_limits};
pub use writing::put_asked;
