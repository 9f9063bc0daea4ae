//! What of the crates below those above take through this one.

pub use mq_disk::Stop;
pub use mq_disk::below::{ChName, Items, Label, QName};
pub use mq_resolve::below::{
    Alter, AlterManager, ChannelKind, ChannelType, Command, Define, Definitions, Defs, Delete,
    Delivery, Display, How, Keyword, LocalQueue, ManagerAttributes, NameSpace, Object,
    ObjectChange, Process, Setting, Style, Subject, Subjects, TriggerType, Usage, is_by_priority,
    is_kind, is_transmission, write_number,
};
pub use mq_resolve::{PathStep, Route, RouteEnd, resolve};
pub use mq_sync::{End, InDoubt, ReceiverData, SenderData, Unit, copy_doubt};
