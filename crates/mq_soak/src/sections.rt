//! The definitions of the three managers.
ghost use Rattle.std.specs.Prelude.{◌≡◌, IfOk};
ghost use Rattle.mq_soak.specs.Words as words;

use crate::lists::{label, name, one, three, two};
use mq_base::{ChName, Items, NoMemory, QName};
use mq_history::Section;
use mq_objects::{AlterManager, ChannelType, Define, Setting, Subject, Usage};
use mq_sc_parse::Command;
use std::alloc::Global;

fn define(subject: Subject, settings: Items<Setting>) -> Command
    ensures { result ≡ words.define subject settings }
{
    Command::Objects(mq_objects::Command::Define(Define {
        subject,
        replace: true,
        settings,
    }))
}

/// DEFINE QLOCAL with USAGE(XMITQ).
fn define_transmission(alloc: Global, name: QName) -> Result<Command, NoMemory>
    ensures { IfOk result (λ c. c ≡ words.define_transmission name) }
{
    let usage = Setting::Usage(Usage::Transmission);
    let settings = two(alloc, usage, Setting::MaxDepth(999_999))?;
    Ok(define(Subject::Local(name), settings))
}

/// DEFINE QLOCAL.
fn define_local(alloc: Global, name: QName) -> Result<Command, NoMemory>
    ensures { IfOk result (λ c. c ≡ words.define_local name) }
{
    let settings = one(alloc, Setting::MaxDepth(999_999))?;
    Ok(define(Subject::Local(name), settings))
}

/// DEFINE CHANNEL of a sender, which sends what stands on that queue.
fn define_sender(alloc: Global, channel: ChName, queue: QName) -> Result<Command, NoMemory>
    ensures { IfOk result (λ c. c ≡ words.define_sender channel queue) }
{
    let kind = Setting::ChannelType(ChannelType::Sender);
    let settings = two(alloc, kind, Setting::TransmissionQueue(queue))?;
    Ok(define(Subject::Channel(channel), settings))
}

/// DEFINE CHANNEL of a receiver.
fn define_receiver(alloc: Global, channel: ChName) -> Result<Command, NoMemory>
    ensures { IfOk result (λ c. c ≡ words.define_receiver channel) }
{
    let settings = one(alloc, Setting::ChannelType(ChannelType::Receiver))?;
    Ok(define(Subject::Channel(channel), settings))
}

/// ALTER QMGR with DEFXMITQ.
fn send_by_default(alloc: Global, queue: QName) -> Result<Command, NoMemory>
    ensures { IfOk result (λ c. c ≡ words.send_by_default queue) }
{
    let settings = one(alloc, Setting::DefaultTransmissionQueue(queue))?;
    let alter = AlterManager {
        force: false,
        settings,
    };
    Ok(Command::Objects(mq_objects::Command::AlterManager(alter)))
}

fn first(alloc: Global) -> Result<Items<Command>, NoMemory>
    ensures { IfOk result (λ cs. cs ≡ words.first_commands) }
{
    let queue = define_transmission(alloc, name(b"M2"))?;
    let default = send_by_default(alloc, name(b"M2"))?;
    let sender = define_sender(alloc, name(b"M1.M2"), name(b"M2"))?;
    three(alloc, queue, default, sender)
}

fn second(alloc: Global) -> Result<Items<Command>, NoMemory>
    ensures { IfOk result (λ cs. cs ≡ words.second_commands) }
{
    let queue = define_transmission(alloc, name(b"M3"))?;
    let receiver = define_receiver(alloc, name(b"M1.M2"))?;
    let sender = define_sender(alloc, name(b"M2.M3"), name(b"M3"))?;
    three(alloc, queue, receiver, sender)
}

fn third(alloc: Global) -> Result<Items<Command>, NoMemory>
    ensures { IfOk result (λ cs. cs ≡ words.third_commands) }
{
    let queue = define_local(alloc, name(b"T"))?;
    let receiver = define_receiver(alloc, name(b"M2.M3"))?;
    two(alloc, queue, receiver)
}

/// The sections, one for each manager.
pub fn sections(alloc: Global) -> Result<Items<Section>, NoMemory>
    ensures { IfOk result (λ ss. ss ≡ words.sections) }
{
    let first = Section {
        label: label(b"D1"),
        manager: 0,
        commands: first(alloc)?,
    };
    let second = Section {
        label: label(b"D2"),
        manager: 1,
        commands: second(alloc)?,
    };
    let third = Section {
        label: label(b"D3"),
        manager: 2,
        commands: third(alloc)?,
    };
    three(alloc, first, second, third)
}
