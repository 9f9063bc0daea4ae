//! Why the managers of a scenario were not begun.
use mq_disk::Disk;
use mq_manager::Manager;

/// Why a network was not begun.
#[derive(Clone, Copy)]
pub enum NetFault {
    /// The shelf or a disk failed: its count of faults rose.
    DiskFault,
    /// The bytes of this manager's disk, a place in the scenario from 0, are no log of it: the gate at fault.
    BadLog(u16, u64),
    /// There was no memory.
    NoMemory,
}

/// What is left where a network was not begun.
#[derive(Drop)]
pub struct NoNet<D: Disk> {
    /// Why it was not.
    pub fault: NetFault,
    /// The disks that were taken, in the order of the managers.
    pub disks: Vec<D>,
}

/// The managers of a scenario that have begun, in its order.
#[derive(Drop)]
pub struct Begun<D: Disk> {
    pub managers: Vec<Manager<D>>,
    /// Room for the disk of each of them, and of one more.
    pub disks: Vec<D>,
}
