//! What of the crates below those above take through this one.

pub use mq_rebuild::below::Effects;
pub use mq_rebuild::{Built, build};
pub use mq_record::started_bytes;
pub use mq_recover::below::are_distinct;
pub use mq_recover::{RecoverFault, Start, image};
pub use mq_redo::below::{ChannelEnds, Core, Live, Mode, Parts, ReadLog};
pub use mq_redo::tell_redone;
