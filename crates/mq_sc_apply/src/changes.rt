//! What a change of an object means for its users: which changes lead a name elsewhere, and which use forbids them.
ghost use Rattle.std.specs.Prelude.{◌≡◌};
ghost use Rattle.mq_sc_apply.specs.Planned.{same_usage, same_delivery, leads_elsewhere, changes_usage, changes_rows, is_on_path, is_sent_from, is_busy, is_filled, is_used};

use crate::in_use::InUse;
use mq_calls::below::{Delivery, Object, Usage, is_by_priority, is_transmission};

fn same_usage(a: Usage, b: Usage) -> bool
    ensures { result ≡ same_usage a b }
{
    if is_transmission(a) {
        is_transmission(b)
    } else {
        !is_transmission(b)
    }
}

/// Whether two deliveries are the same.
pub fn same_delivery(a: Delivery, b: Delivery) -> bool
    ensures { result ≡ same_delivery a b }
{
    if is_by_priority(a) {
        is_by_priority(b)
    } else {
        !is_by_priority(b)
    }
}

/// Whether the name leads elsewhere after the change.
pub fn leads_elsewhere(old: &Object, new: &Object) -> bool
    ensures { result ≡ leads_elsewhere old.now new.now }
{
    match (old, new) {
        (Object::Local(a), Object::Local(b)) => !same_usage(a.usage, b.usage),
        (Object::Alias(a), Object::Alias(b)) => a.target != b.target,
        (Object::Remote(a), Object::Remote(b)) => {
            !(a.remote_name == b.remote_name
                && a.remote_manager == b.remote_manager
                && a.transmission_queue == b.transmission_queue)
        }
        _ => false,
    }
}

fn changes_usage(old: &Object, new: &Object) -> bool
    ensures { result ≡ changes_usage old.now new.now }
{
    match (old, new) {
        (Object::Local(a), Object::Local(b)) => !same_usage(a.usage, b.usage),
        _ => false,
    }
}

/// Whether USAGE or MSGDLVSQ changes.
pub fn changes_rows(old: &Object, new: &Object) -> bool
    ensures { result ≡ changes_rows old.now new.now }
{
    match (old, new) {
        (Object::Local(a), Object::Local(b)) => {
            !(same_usage(a.usage, b.usage) && same_delivery(a.delivery, b.delivery))
        }
        _ => false,
    }
}

/// Whether a live handle's path has the object.
pub fn is_on_path<U: InUse>(object: &Object, uses: &U) -> bool
    ensures { result ≡ is_on_path object.now (U.facts uses.now) }
{
    match object {
        Object::Local(queue) => uses.on_path(&queue.name),
        Object::Alias(queue) => uses.on_path(&queue.name),
        Object::Remote(queue) => uses.on_path(&queue.name),
        Object::Channel(_) | Object::Process(_) => false,
    }
}

/// Whether a running sender has the object open.
pub fn is_sent_from<U: InUse>(object: &Object, uses: &U) -> bool
    ensures { result ≡ is_sent_from object.now (U.facts uses.now) }
{
    match object {
        Object::Local(queue) => uses.sending(&queue.name),
        _ => false,
    }
}

/// Whether the object is a channel that runs or is in doubt.
pub fn is_busy<U: InUse>(object: &Object, uses: &U) -> bool
    ensures { result ≡ is_busy object.now (U.facts uses.now) }
{
    match object {
        Object::Channel(channel) => uses.channel_busy(&channel.name),
        _ => false,
    }
}

/// Whether the object is a queue with rows or uncommitted puts.
pub fn is_filled<U: InUse>(object: &Object, uses: &U) -> bool
    ensures { result ≡ is_filled object.now (U.facts uses.now) }
{
    match object {
        Object::Local(queue) => uses.has_rows(&queue.name),
        _ => false,
    }
}

/// Whether the use of an object forbids a change of it.
pub fn is_used<U: InUse>(force: bool, old: &Object, new: &Object, uses: &U) -> bool
    ensures { result ≡ is_used force old.now new.now (U.facts uses.now) }
{
    (!force && leads_elsewhere(old, new) && is_on_path(old, uses))
        || (changes_usage(old, new) && is_sent_from(old, uses))
        || is_busy(old, uses)
}
