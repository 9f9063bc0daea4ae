//! What a rules table says. Source: IBM MQ, "The dead-letter queue handler rules table".

use mq_heads::below::{Items, QName};

/// A text that a rule tests.
#[derive(Clone, Copy, PartialEq, Eq)]
pub enum TextField {
    /// APPLIDAT: the descriptor's ApplIdentityData.
    IdentityData,
    /// APPLNAME: the descriptor's PutApplName.
    ApplicationName,
    /// DESTQ: the header's DestQName.
    DestQueue,
    /// DESTQM: the header's DestQMgrName.
    DestQueueManager,
    /// FORMAT: the header's Format, that of the body behind it.
    Format,
    /// REPLYQ: the descriptor's ReplyToQ.
    ReplyQueue,
    /// REPLYQM: the descriptor's ReplyToQMgr.
    ReplyQueueManager,
    /// USERID: the descriptor's UserIdentifier.
    UserIdentifier,
}

/// A number that a rule tests.
#[derive(Clone, Copy)]
pub enum NumberField {
    /// APPLTYPE: the descriptor's PutApplType.
    ApplicationType,
    /// FEEDBACK: the descriptor's Feedback.
    Feedback,
    /// MSGTYPE: the descriptor's MsgType.
    MessageType,
    /// PERSIST: the descriptor's Persistence.
    Persistence,
    /// REASON: the header's Reason.
    Reason,
}

/// What a rule asks of a dead letter.
#[derive(Drop)]
pub enum Condition {
    /// The field's text without trailing blanks is like the pattern: `*` stands for any bytes, `?` for
    /// one byte.
    Text(TextField, Items<u8>),
    /// The field is this number.
    Number(NumberField, i32),
}

/// A queue or a manager to which a rule forwards: a name, or the one that a field holds.
#[derive(Clone, Copy)]
pub enum Target {
    Name(QName),
    /// `&DESTQ`: the header's DestQName.
    DestQueue,
    /// `&DESTQM`: the header's DestQMgrName.
    DestQueueManager,
    /// `&REPLYQ`: the descriptor's ReplyToQ.
    ReplyQueue,
    /// `&REPLYQM`: the descriptor's ReplyToQMgr.
    ReplyQueueManager,
}

/// Where a message is forwarded.
#[derive(Clone, Copy)]
pub struct Forward {
    /// FWDQ.
    pub queue: Target,
    /// FWDQM; the blank name is the handler's own manager.
    pub qmgr: Target,
    /// HEADER: the message keeps its dead-letter header.
    pub header: bool,
}

/// What is done with a message that a rule matches.
#[derive(Clone, Copy)]
pub enum Action {
    /// The message is removed.
    Discard,
    /// It stays on the queue.
    Ignore,
    /// It is put to its destination once more.
    Retry,
    /// It is put elsewhere.
    Forward(Forward),
}

/// A rule: it matches where each of its conditions holds.
#[derive(Drop)]
pub struct Rule {
    pub conditions: Items<Condition>,
    pub action: Action,
    /// RETRY: after so many failed tries the next matching rule is in force; 1 to 999,999,999.
    pub retries: u32,
}

/// How long a handler waits for messages. It is kept and has no effect here (this project's choice).
#[derive(Clone, Copy, PartialEq, Eq)]
pub enum Wait {
    /// For ever.
    Yes,
    /// Not at all.
    No,
    /// 0 to 999,999,999 seconds.
    Seconds(u32),
}

/// A rules table.
#[derive(Drop)]
pub struct Table {
    /// INPUTQ: the queue whose messages are handled; blank for the manager's dead-letter queue.
    pub input_q: QName,
    /// RETRYINT: the seconds between two tries, 1 to 999,999,999.
    pub retry_interval: u32,
    /// WAIT.
    pub wait: Wait,
    /// In order; the first that matches is in force.
    pub rules: Items<Rule>,
}
