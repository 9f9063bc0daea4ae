//! What is kept by channel: lists in the order of the channels' names, one entry a channel.
#![tactic(auto)]

pub mod below;
mod bonds;
mod kept;
mod named;
mod sides;

pub use bonds::{Bond, Bonds};
pub use kept::{KeptBatch, KeptReceiver, KeptSender};
pub use named::{batch_of, receiver_data, receiver_of, seizure_of, sender_data, sender_of};
pub use sides::{
    OfChannel, Undo, drop_side, set_side, side_of, standing_of, swap_side, take_side, undo_side,
};
