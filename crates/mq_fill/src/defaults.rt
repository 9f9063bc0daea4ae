//! Defaults of the first definition that a name led over (IBM MQ reference, "MQMD", Priority and Persistence).
ghost use Rattle.std.specs.Prelude.{◌≡◌, ◌<◌, drop, option_copied};
ghost use Rattle.mq_spec_manager.specs.Words.{first_on, default_priority, default_persistent, priority_or, persistence_or};

use mq_base::QName;
use mq_objects::Object;
use mq_resolve::PathStep;

/// The name of the first definition on a path; the blank name where there is none.
pub fn first_on(path: &[PathStep]) -> QName
    ensures { result ≡ first_on path.now }
{
    for step in path {
        match step {
            PathStep::Queue(name) => return *name,
            PathStep::DefXmitq => {}
        }
    }
    QName::blank()
}

/// DEFPRTY of a queue.
pub fn default_priority(object: Option<&Object>) -> u8
    ensures { result ≡ default_priority (option_copied object.entry) }
{
    match object {
        Some(Object::Local(queue)) => queue.default_priority,
        Some(Object::Alias(queue)) => queue.default_priority,
        Some(Object::Remote(queue)) => queue.default_priority,
        Some(Object::Channel(_)) => 0,
        Some(Object::Process(_)) => 0,
        None => 0,
    }
}

/// Whether a queue has DEFPSIST(YES).
pub fn default_persistent(object: Option<&Object>) -> bool
    ensures { result ≡ default_persistent (option_copied object.entry) }
{
    match object {
        Some(Object::Local(queue)) => queue.default_persistent,
        Some(Object::Alias(queue)) => queue.default_persistent,
        Some(Object::Remote(queue)) => queue.default_persistent,
        Some(Object::Channel(_)) => false,
        Some(Object::Process(_)) => false,
        None => false,
    }
}

/// A priority below 0 stands for the default.
pub(crate) fn priority_or(default: u8, priority: i32) -> i32
    ensures { result ≡ priority_or default priority }
{
    if priority < 0 {
        i32::from(default)
    } else {
        priority
    }
}

/// A persistence that is neither 0 nor 1 stands for the default.
pub(crate) fn persistence_or(default: bool, persistence: i32) -> i32
    ensures { result ≡ persistence_or default persistence }
{
    if persistence == 0 || persistence == 1 {
        persistence
    } else if default {
        1
    } else {
        0
    }
}
