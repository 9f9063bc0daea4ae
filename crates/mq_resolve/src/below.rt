//! What of the crates below those above take through this one.

pub use mq_codes::Reason;
pub use mq_objects::{
    Alter, AlterManager, ChannelKind, ChannelType, Command, Define, Definitions, Defs, Delete,
    Delivery, Display, How, Keyword, LocalQueue, ManagerAttributes, NameSpace, Object,
    ObjectChange, Process, Setting, Style, Subject, Subjects, TriggerType, Usage, is_by_priority,
    is_kind, is_transmission, write_number,
};
