//! Each kind's attributes as text, in the order of its table.
ghost use Rattle.std.specs.Prelude.{◌≡◌, OnOk};
ghost use Rattle.mq_objects.specs.Attributes.{yes_or_no, enabled_or_not, delivery_word, trigger_word, usage_word, speed_word, trigger_flag, first_of_local, second_of_local, trigger_of_local, local_attributes, alias_attributes, remote_attributes, channel_attributes, process_attributes, manager_attributes, attributes};
ghost use Rattle.mq_objects.specs.Written.{put_all};

use crate::object::{
    AliasQueue, Channel, ChannelKind, Delivery, LocalQueue, ManagerAttributes, Object, Process,
    RemoteQueue, TriggerType, Usage,
};
use crate::setting::Keyword;
use crate::text::{How, write_flag, write_number, write_text, write_word};
use mq_base::Items;
use std::alloc::AllocError;

fn yes_or_no(b: bool) -> &'static str
    ensures { result.now ≡ yes_or_no b }
{
    if b { "YES" } else { "NO" }
}

fn enabled_or_not(b: bool) -> &'static str
    ensures { result.now ≡ enabled_or_not b }
{
    if b { "ENABLED" } else { "DISABLED" }
}

fn speed_word(b: bool) -> &'static str
    ensures { result.now ≡ speed_word b }
{
    if b { "FAST" } else { "NORMAL" }
}

fn trigger_flag(b: bool) -> &'static str
    ensures { result.now ≡ trigger_flag b }
{
    if b { "TRIGGER" } else { "NOTRIGGER" }
}

fn delivery_word(delivery: Delivery) -> &'static str
    ensures { result.now ≡ delivery_word delivery }
{
    match delivery {
        Delivery::Priority => "PRIORITY",
        Delivery::Fifo => "FIFO",
    }
}

fn trigger_word(trigger_type: TriggerType) -> &'static str
    ensures { result.now ≡ trigger_word trigger_type }
{
    match trigger_type {
        TriggerType::First => "FIRST",
        TriggerType::Every => "EVERY",
        TriggerType::Depth => "DEPTH",
        TriggerType::Never => "NONE",
    }
}

fn usage_word(usage: Usage) -> &'static str
    ensures { result.now ≡ usage_word usage }
{
    match usage {
        Usage::Normal => "NORMAL",
        Usage::Transmission => "XMITQ",
    }
}

impl LocalQueue {
    /// Writes the attributes that are asked behind a text, in the order of the table of attributes.
    pub fn write_attributes(&self, how: &How, text: &mut Items<u8>) -> Result<(), AllocError>
        ensures { OnOk result (text.new ≡ put_all how.now.style how.now.asked.now text.old (local_attributes self.now)) }
    {
        self.write_triggered(how, text, self.trigger)
    }

    // DEFPRTY to MAXDEPTH.
    fn write_first(&self, how: &How, text: &mut Items<u8>) -> Result<(), AllocError>
        ensures { OnOk result (text.new ≡ put_all how.now.style how.now.asked.now text.old (first_of_local self.now)) }
    {
        write_number(
            how,
            text,
            Keyword::DefPrty,
            "DEFPRTY",
            u64::from(self.default_priority),
        )?;
        write_word(
            how,
            text,
            Keyword::DefPsist,
            "DEFPSIST",
            yes_or_no(self.default_persistent),
        )?;
        write_word(
            how,
            text,
            Keyword::Get,
            "GET",
            enabled_or_not(self.get_enabled),
        )?;
        write_text(
            how,
            text,
            Keyword::InitQ,
            "INITQ",
            self.initiation_queue.text(),
        )?;
        write_number(
            how,
            text,
            Keyword::MaxDepth,
            "MAXDEPTH",
            u64::from(self.max_depth),
        )
    }

    // MAXMSGL to PUT.
    fn write_second(&self, how: &How, text: &mut Items<u8>) -> Result<(), AllocError>
        ensures { OnOk result (text.new ≡ put_all how.now.style how.now.asked.now text.old (second_of_local self.now)) }
    {
        write_number(
            how,
            text,
            Keyword::MaxMsgL,
            "MAXMSGL",
            u64::from(self.max_message_length),
        )?;
        write_word(
            how,
            text,
            Keyword::MsgDlvSq,
            "MSGDLVSQ",
            delivery_word(self.delivery),
        )?;
        write_text(how, text, Keyword::Process, "PROCESS", self.process.text())?;
        write_word(
            how,
            text,
            Keyword::Put,
            "PUT",
            enabled_or_not(self.put_enabled),
        )
    }

    // What begins with TRIG, with TRIGGER or NOTRIGGER as it is given.
    fn write_trigger(
        &self,
        how: &How,
        text: &mut Items<u8>,
        trigger: bool,
    ) -> Result<(), AllocError>
        ensures { OnOk result (text.new ≡ put_all how.now.style how.now.asked.now text.old (trigger_of_local (record self.now { trigger = trigger }))) }
    {
        write_text(
            how,
            text,
            Keyword::TrigData,
            "TRIGDATA",
            self.trigger_data.as_slice(),
        )?;
        write_number(
            how,
            text,
            Keyword::TrigDpth,
            "TRIGDPTH",
            u64::from(self.trigger_depth),
        )?;
        write_flag(how, text, Keyword::Trigger, trigger_flag(trigger))?;
        write_number(
            how,
            text,
            Keyword::TrigMPri,
            "TRIGMPRI",
            u64::from(self.trigger_priority),
        )?;
        write_word(
            how,
            text,
            Keyword::TrigType,
            "TRIGTYPE",
            trigger_word(self.trigger_type),
        )
    }

    /// The same with TRIGGER or NOTRIGGER as it is given, and not as the queue is defined.
    pub fn write_triggered(
        &self,
        how: &How,
        text: &mut Items<u8>,
        trigger: bool,
    ) -> Result<(), AllocError>
        ensures { OnOk result (text.new ≡ put_all how.now.style how.now.asked.now text.old (local_attributes (record self.now { trigger = trigger }))) }
    {
        self.write_first(how, text)?;
        self.write_second(how, text)?;
        self.write_trigger(how, text, trigger)?;
        write_word(how, text, Keyword::Usage, "USAGE", usage_word(self.usage))
    }
}

impl AliasQueue {
    /// Writes the attributes that are asked behind a text, in the order of the table of attributes.
    pub fn write_attributes(&self, how: &How, text: &mut Items<u8>) -> Result<(), AllocError>
        ensures { OnOk result (text.new ≡ put_all how.now.style how.now.asked.now text.old (alias_attributes self.now)) }
    {
        let q = self;
        write_number(
            how,
            text,
            Keyword::DefPrty,
            "DEFPRTY",
            u64::from(q.default_priority),
        )?;
        write_word(
            how,
            text,
            Keyword::DefPsist,
            "DEFPSIST",
            yes_or_no(q.default_persistent),
        )?;
        write_word(
            how,
            text,
            Keyword::Get,
            "GET",
            enabled_or_not(q.get_enabled),
        )?;
        write_word(
            how,
            text,
            Keyword::Put,
            "PUT",
            enabled_or_not(q.put_enabled),
        )?;
        write_text(how, text, Keyword::Target, "TARGET", q.target.text())
    }
}

impl RemoteQueue {
    /// Writes the attributes that are asked behind a text, in the order of the table of attributes.
    pub fn write_attributes(&self, how: &How, text: &mut Items<u8>) -> Result<(), AllocError>
        ensures { OnOk result (text.new ≡ put_all how.now.style how.now.asked.now text.old (remote_attributes self.now)) }
    {
        let q = self;
        write_number(
            how,
            text,
            Keyword::DefPrty,
            "DEFPRTY",
            u64::from(q.default_priority),
        )?;
        write_word(
            how,
            text,
            Keyword::DefPsist,
            "DEFPSIST",
            yes_or_no(q.default_persistent),
        )?;
        write_word(
            how,
            text,
            Keyword::Put,
            "PUT",
            enabled_or_not(q.put_enabled),
        )?;
        write_text(how, text, Keyword::RName, "RNAME", q.remote_name.text())?;
        write_text(
            how,
            text,
            Keyword::RQMName,
            "RQMNAME",
            q.remote_manager.text(),
        )?;
        write_text(
            how,
            text,
            Keyword::XmitQ,
            "XMITQ",
            q.transmission_queue.text(),
        )
    }
}

impl Channel {
    /// Writes the attributes that are asked behind a text, in the order of the table of attributes.
    pub fn write_attributes(&self, how: &How, text: &mut Items<u8>) -> Result<(), AllocError>
        ensures { OnOk result (text.new ≡ put_all how.now.style how.now.asked.now text.old (channel_attributes self.now.kind self.now.sequence_wrap self.now.fast)) }
    {
        match self.kind {
            ChannelKind::Sender(batch, retry, xmitq) => {
                write_word(how, text, Keyword::ChlType, "CHLTYPE", "SDR")?;
                write_number(how, text, Keyword::BatchSz, "BATCHSZ", u64::from(batch))?;
                write_number(
                    how,
                    text,
                    Keyword::SeqWrap,
                    "SEQWRAP",
                    u64::from(self.sequence_wrap),
                )?;
                write_number(how, text, Keyword::ShortRty, "SHORTRTY", u64::from(retry))?;
                write_text(how, text, Keyword::XmitQ, "XMITQ", xmitq.text())?;
                write_word(
                    how,
                    text,
                    Keyword::NpmSpeed,
                    "NPMSPEED",
                    speed_word(self.fast),
                )
            }
            ChannelKind::Receiver(dead) => {
                write_word(how, text, Keyword::ChlType, "CHLTYPE", "RCVR")?;
                write_word(how, text, Keyword::UseDlq, "USEDLQ", yes_or_no(dead))?;
                write_number(
                    how,
                    text,
                    Keyword::SeqWrap,
                    "SEQWRAP",
                    u64::from(self.sequence_wrap),
                )?;
                write_word(
                    how,
                    text,
                    Keyword::NpmSpeed,
                    "NPMSPEED",
                    speed_word(self.fast),
                )
            }
        }
    }
}

impl Process {
    /// Writes the attributes that are asked behind a text, in the order of the table of attributes.
    pub fn write_attributes(&self, how: &How, text: &mut Items<u8>) -> Result<(), AllocError>
        ensures { OnOk result (text.new ≡ put_all how.now.style how.now.asked.now text.old (process_attributes self.now)) }
    {
        write_text(
            how,
            text,
            Keyword::ApplicId,
            "APPLICID",
            self.appl_id.as_slice(),
        )?;
        write_number(
            how,
            text,
            Keyword::ApplType,
            "APPLTYPE",
            u64::from(self.appl_type),
        )?;
        write_text(
            how,
            text,
            Keyword::EnvrData,
            "ENVRDATA",
            self.environment_data.as_slice(),
        )?;
        write_text(
            how,
            text,
            Keyword::UserData,
            "USERDATA",
            self.user_data.as_slice(),
        )
    }
}

impl ManagerAttributes {
    /// Writes the attributes that are asked behind a text, in the order of the table of attributes.
    pub fn write_attributes(&self, how: &How, text: &mut Items<u8>) -> Result<(), AllocError>
        ensures { OnOk result (text.new ≡ put_all how.now.style how.now.asked.now text.old (manager_attributes self.now)) }
    {
        let m = self;
        write_text(
            how,
            text,
            Keyword::DeadQ,
            "DEADQ",
            m.dead_letter_queue.text(),
        )?;
        write_text(
            how,
            text,
            Keyword::DefXmitQ,
            "DEFXMITQ",
            m.default_transmission_queue.text(),
        )?;
        write_number(
            how,
            text,
            Keyword::MaxHands,
            "MAXHANDS",
            u64::from(m.max_handles),
        )?;
        write_number(
            how,
            text,
            Keyword::MaxMsgL,
            "MAXMSGL",
            u64::from(m.max_message_length),
        )?;
        write_number(
            how,
            text,
            Keyword::MaxUMsgs,
            "MAXUMSGS",
            u64::from(m.max_uncommitted),
        )?;
        write_number(
            how,
            text,
            Keyword::TrigInt,
            "TRIGINT",
            u64::from(m.trigger_interval),
        )
    }
}

impl Object {
    /// Writes the attributes that are asked behind a text, in the order of the table of attributes.
    pub fn write_attributes(&self, how: &How, text: &mut Items<u8>) -> Result<(), AllocError>
        ensures { OnOk result (text.new ≡ put_all how.now.style how.now.asked.now text.old (attributes self.now)) }
    {
        match self {
            Object::Local(queue) => queue.write_attributes(how, text),
            Object::Alias(queue) => queue.write_attributes(how, text),
            Object::Remote(queue) => queue.write_attributes(how, text),
            Object::Channel(channel) => channel.write_attributes(how, text),
            Object::Process(process) => process.write_attributes(how, text),
        }
    }
}
