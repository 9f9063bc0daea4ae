//! The frames that the two ends of a channel exchange.
#![tactic(auto)]

pub mod below;
mod decoder;
mod fault;
mod frame;
mod framing;
mod laws;
pub mod reading;
mod shape;
mod sight;
mod writing;

pub use decoder::Decoder;
pub use fault::{Miss, Stop};
pub use frame::{Frame, FrameFault, FrameKind, Frames, Seen};
pub use laws::{
    bytes_are_cut_in_one_way, bytes_show_one_thing, no_frame_begins_another,
    wrong_bytes_never_go_on,
};
pub use sight::seen_of;
pub use writing::{encode, push_message};
