//! Changes of what is defined.
use crate::command::Subject;
use crate::object::{ManagerAttributes, Object};

/// A change of the definitions, as a command makes it and the log keeps it.
#[derive(Drop)]
pub enum ObjectChange {
    /// The object takes the place of the one that has its name, or stands last.
    Set(Object),
    /// The manager's own attributes.
    SetManager(ManagerAttributes),
    /// What stands under that name goes.
    Delete(Subject),
}
