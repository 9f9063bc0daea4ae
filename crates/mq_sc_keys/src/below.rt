//! What of the crates below those above take through this one.

pub use mq_objects::below::{ChName, Items, QName};
pub use mq_objects::{
    Alter, AlterManager, ChannelType, Command, Define, Delete, Display, Keyword, Setting, Subject,
    Subjects,
};
