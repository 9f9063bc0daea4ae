//! Where a reply goes: to the reply queue of the message that the script got last.
ghost use Rattle.std.specs.Prelude.{◌≡◌};
ghost use Rattle.mq_spec_node.specs.Scripts as scripts;
ghost use Rattle.mq_spec_node.specs.Scripts.{nowhere, manager_target, queue_target, reply_target};

use mq_base::{QName, trimmed};
use mq_message::Md;
use std::marker::Model;

/// A queue and a manager by name; both are blank where there is none.
#[derive(Clone, Copy)]
pub(crate) struct Target {
    pub name: QName,
    pub qmgr: QName,
}

impl Model for Target {
    ghost use Rattle.mq_spec_node.specs.Scripts as targets;

    ghost Value = { targets.Target };

    ghost view = { λ t. record { name = t.name; qmgr = t.qmgr } };

    ghost inverse = { λ t. record { name = t.name; qmgr = t.qmgr } };
}

fn nowhere() -> Target
    ensures { result ≡ nowhere }
{
    Target {
        name: QName::blank(),
        qmgr: QName::blank(),
    }
}

fn manager_target(name: QName, qmgr: &[u8]) -> Target
    ensures { result ≡ manager_target name qmgr.now }
{
    if qmgr.is_empty() {
        return Target {
            name,
            qmgr: QName::blank(),
        };
    }
    match QName::of(qmgr) {
        Ok(qmgr) => Target { name, qmgr },
        Err(_) => nowhere(),
    }
}

fn queue_target(queue: &[u8], qmgr: &[u8]) -> Target
    ensures { result ≡ queue_target queue.now qmgr.now }
{
    match QName::of(queue) {
        Ok(name) => manager_target(name, qmgr),
        Err(_) => nowhere(),
    }
}

/// ReplyToQ at ReplyToQMgr of a message; blank names where there is none, or where the fields are no names.
pub(crate) fn reply_target(last: &Option<Md>) -> Target
    ensures { result ≡ reply_target last.now }
{
    match last {
        None => nowhere(),
        Some(md) => queue_target(trimmed(&md.reply_to_q), trimmed(&md.reply_to_q_mgr)),
    }
}
