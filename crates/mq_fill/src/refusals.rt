//! What the definitions on a path refuse.
ghost use Rattle.std.specs.Prelude.{◌≡◌, option_copied};
ghost use Rattle.std.specs.List.{list_any};
ghost use Rattle.mq_spec_manager.specs.Put.{is_put_disabled, is_disabled_at, max_length, max_depth};

use mq_objects::{Defs, LocalQueue, Object};
use mq_resolve::PathStep;

fn is_put_disabled(object: Option<&Object>) -> bool
    ensures { result ≡ is_put_disabled (option_copied object.entry) }
{
    match object {
        Some(Object::Local(queue)) => !queue.put_enabled,
        Some(Object::Alias(queue)) => !queue.put_enabled,
        Some(Object::Remote(queue)) => !queue.put_enabled,
        Some(Object::Channel(_)) => false,
        Some(Object::Process(_)) => false,
        None => false,
    }
}

fn is_disabled_at(defs: &Defs, step: &PathStep) -> bool
    ensures { result ≡ is_disabled_at defs.now.definitions step.now }
{
    match step {
        PathStep::Queue(name) => is_put_disabled(defs.queue(name)),
        PathStep::DefXmitq => false,
    }
}

/// Whether a definition on the path has PUT(DISABLED).
pub fn is_inhibited(defs: &Defs, path: &[PathStep]) -> bool
    ensures { result ≡ list_any (is_disabled_at defs.now.definitions) path.now }
{
    path.iter().any(|step| is_disabled_at(defs, step))
}

/// MAXMSGL of a local queue, 0 where there is none.
pub fn max_length(queue: Option<&LocalQueue>) -> u32
    ensures { result ≡ max_length (option_copied queue.entry) }
{
    match queue {
        None => 0,
        Some(local) => local.max_message_length,
    }
}

/// MAXDEPTH of a local queue, 0 where there is none.
pub fn max_depth(queue: Option<&LocalQueue>) -> u32
    ensures { result ≡ max_depth (option_copied queue.entry) }
{
    match queue {
        None => 0,
        Some(local) => local.max_depth,
    }
}
