//! The message that a trigger sends to its initiation queue.
ghost use Rattle.std.specs.Prelude.{◌≡◌, ◌≤◌, pos, codes, IfOk, IfSome};
ghost use Rattle.mq_base.specs.Name.{padded};
ghost use Rattle.mq_clock.specs.from_heads.Stamps.{put_date, put_time};
ghost use Rattle.mq_handles.specs.from_spec_manager.Heads.{own_md, tm_of};
ghost use Rattle.mq_handles.specs.from_spec_manager.Triggers.{trigger_message};

use mq_base::NoMemory;
use mq_clock::below::{Bytes, Ident, Md, Message, Tm, made_msg_id, tm_to_bytes};
use mq_clock::put_stamp;
use mq_handles::below::{LocalQueue, Process};
use std::alloc::Global;

/// A text as a field with blanks behind it; none where it is longer than the field.
fn field_of<const N: usize>(text: &[u8]) -> Option<[u8; N]>
    ensures { IfSome result (λ field. field ≡ padded N text.now) }
{
    if text.len() > N {
        return None;
    }
    let mut field = [b' '; N];
    let (front, _) = field.split_at_mut(text.len());
    front.copy_from_slice(text);
    Some(field)
}

/// The trigger message of a queue and a process; none where a text is longer than its field.
fn tm_of(queue: &LocalQueue, process: &Process) -> Option<Tm>
    ensures { IfSome result (λ tm. tm ≡ tm_of queue.now process.now) }
{
    let appl_type = i32::try_from(process.appl_type).ok()?;
    Some(Tm {
        q_name: *queue.name.bytes(),
        process_name: *process.name.bytes(),
        trigger_data: field_of::<64>(queue.trigger_data.as_slice())?,
        appl_type,
        appl_id: field_of::<256>(process.appl_id.as_slice())?,
        env_data: field_of::<128>(process.environment_data.as_slice())?,
        user_data: field_of::<128>(process.user_data.as_slice())?,
    })
}

/// The descriptor of a trigger message.
fn trigger_md(ident: &Ident, priority: u8, moment: u64) -> Md
    requires { moment ≤ 253402300799999 }
    ensures { result ≡ own_md ident.now (codes "MQTRIG  ") (pos priority) (pos 0) (put_date moment) (put_time moment) }
{
    let (put_date, put_time) = put_stamp(moment);
    Md {
        report: 0,
        msg_type: 8,
        expiry: -1,
        feedback: 0,
        encoding: 273,
        coded_char_set_id: 1208,
        format: *b"MQTRIG  ",
        priority: priority as i32,
        persistence: 0,
        msg_id: made_msg_id(ident),
        correl_id: [0; 24],
        backout_count: 0,
        reply_to_q: [b' '; 48],
        reply_to_q_mgr: [b' '; 48],
        user_identifier: [b' '; 12],
        accounting_token: [0; 32],
        appl_identity_data: [b' '; 32],
        put_appl_type: 6,
        put_appl_name: [b' '; 28],
        put_date,
        put_time,
        appl_origin_data: [b' '; 4],
    }
}

/// The message of a trigger of a queue, which starts a process, as it stands on the initiation queue.
///
/// # Errors
///
/// No memory, or a text of the queue or of the process that is longer than its field, which no command makes.
pub fn trigger_message(
    alloc: Global,
    ident: &Ident,
    queue: &LocalQueue,
    process: &Process,
    initiation: &LocalQueue,
    moment: u64,
) -> Result<Message, NoMemory>
    requires { moment ≤ 253402300799999 }
    ensures { IfOk result (λ message. message ≡ trigger_message ident.now queue.now process.now initiation.now moment) }
{
    let Some(tm) = tm_of(queue, process) else {
        return Err(NoMemory);
    };
    let Ok(body) = Bytes::from_slice(alloc, &tm_to_bytes(&tm)) else {
        return Err(NoMemory);
    };
    Ok(Message {
        ident: *ident,
        md: trigger_md(ident, initiation.default_priority, moment),
        route: None,
        deadline: None,
        body,
    })
}
