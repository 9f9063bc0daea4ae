//! A disk by its meaning: what a read gives and what a crash may leave. Disks and shelves in memory, a disk that
//! stops, files, and the cut between a log and a disk.
#![tactic(auto)]

pub mod below;
mod counted;
mod cutter;
mod disk;
mod file;
mod fuse;
mod mem_shelf;
mod memory;
mod shelf;
mod twin;

pub use cutter::{Cutter, Stop};
pub use disk::Disk;
pub use file::{FileDisk, FileShelf};
pub use fuse::Fuse;
pub use mem_shelf::MemShelf;
pub use memory::{Image, MemDisk};
pub use mq_base::Failed;
pub use shelf::{Shelf, Side, TakeFault};
