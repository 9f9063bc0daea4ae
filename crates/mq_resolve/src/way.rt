//! The transmission queue that leads to another manager.
ghost use Rattle.std.specs.Prelude.{◌≡◌, ℕ, List, [], false};
ghost use Rattle.mq_resolve.specs.Resolved.{transmission, default_table, is_transmission_queue, is_blank};
ghost use Rattle.mq_objects.specs.Names.{queue_of};

use mq_codes::Reason;
use mq_objects::below::QName;
use mq_objects::{Defs, LocalQueue, Object, Usage};

/// A transmission queue, and whether the manager's DEFXMITQ gave it.
#[derive(Clone, Copy)]
pub struct Way {
    /// The transmission queue's name.
    pub queue: QName,
    /// DEFXMITQ named it.
    pub by_default: bool,
}

fn usage_of(queue: &LocalQueue) -> bool
    ensures { result ≡ is_transmission_queue queue.now }
{
    matches!(queue.usage, Usage::Transmission)
}

/// The transmission queue that an XMITQ names.
fn by_name(defs: &Defs, x: &QName) -> Result<Way, Reason>
    requires { is_blank x.now ≡ false }
    ensures { (m : List ℕ) → result ≡ transmission m x.now defs.now.definitions }
{
    match defs.queue(x) {
        Some(Object::Local(queue)) if usage_of(queue) => Ok(Way {
            queue: *x,
            by_default: false,
        }),
        Some(Object::Local(_)) => Err(Reason::TransmissionQueueUsageError),
        Some(Object::Alias(_) | Object::Remote(_)) => Err(Reason::TransmissionQueueTypeError),
        _ => Err(Reason::UnknownTransmissionQueue),
    }
}

/// The queue that the manager's DEFXMITQ names.
fn by_default(defs: &Defs) -> Result<Way, Reason>
    ensures { result ≡ default_table defs.now.definitions.manager.default_transmission_queue (queue_of defs.now.definitions.manager.default_transmission_queue defs.now.definitions) }
{
    let x = &defs.manager().default_transmission_queue;
    if x.is_blank() {
        return Err(Reason::UnknownRemoteQueueManager);
    }
    match defs.queue(x) {
        Some(Object::Local(queue)) if usage_of(queue) => Ok(Way {
            queue: *x,
            by_default: true,
        }),
        Some(Object::Local(_)) => Err(Reason::DefaultTransmissionQueueUsageError),
        Some(Object::Alias(_) | Object::Remote(_)) => {
            Err(Reason::DefaultTransmissionQueueTypeError)
        }
        _ => Err(Reason::UnknownDefaultTransmissionQueue),
    }
}

/// A queue that has the manager's name, else the one of DEFXMITQ.
fn by_manager(defs: &Defs, manager: &QName) -> Result<Way, Reason>
    ensures { result ≡ transmission manager.now [] defs.now.definitions }
{
    match defs.queue(manager) {
        Some(Object::Local(queue)) if usage_of(queue) => Ok(Way {
            queue: *manager,
            by_default: false,
        }),
        Some(Object::Local(_)) => Err(Reason::TransmissionQueueUsageError),
        Some(Object::Alias(_) | Object::Remote(_)) => Err(Reason::TransmissionQueueTypeError),
        _ => by_default(defs),
    }
}

/// The transmission queue for a manager, by the value of an XMITQ.
pub fn transmission(defs: &Defs, manager: &QName, x: &QName) -> Result<Way, Reason>
    ensures { result ≡ transmission manager.now x.now defs.now.definitions }
{
    if x.is_blank() {
        by_manager(defs, manager)
    } else {
        by_name(defs, x)
    }
}
