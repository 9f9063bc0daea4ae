//! The descriptor that a manager fills in at a put (IBM MQ reference, "MQMD").
ghost use Rattle.std.specs.List.{list_all};
ghost use Rattle.std.specs.Prelude.{◌≡◌, ◌==◌, ◌+◌, ◌≤◌, ◌<◌, ◌^◌, ◌-◌, ℕ, List, IfSome};
ghost use Rattle.mq_spec_manager.specs.Words.{id_or, set_or, filled_by, filled, deadline_of, message_put, last_moment};
ghost use Rattle.mq_objects.specs.Names.{queue_of};
ghost use Rattle.mq_fill.specs.Drafts.{message_of};

use crate::defaults::{
    default_persistent, default_priority, first_on, persistence_or, priority_or,
};
use crate::replies::{Replies, replies_to};
use crate::routes::dest_at;
use mq_base::QName;
use mq_clock::put_stamp;
use mq_message::{Dest, Ident, Md, made_msg_id};
use mq_objects::Defs;
use mq_resolve::{PathStep, RouteEnd};
use mq_spec_manager::below::Appl;

/// A message that is put, before its body is there.
#[derive(Clone, Copy)]
pub struct Draft {
    pub ident: Ident,
    pub md: Md,
    pub route: Option<Dest>,
    /// The moment from which on it is expired, in milliseconds since 1970.
    pub deadline: Option<u64>,
}

/// Whether an id is zero.
fn is_zero(id: &[u8; 24]) -> bool
    ensures { result ≡ list_all (λ b. b == 0) id.now }
{
    id.iter().all(|b| *b == 0)
}

/// A MsgId that is zero is made of the ident.
fn id_or(ident: &Ident, id: &[u8; 24]) -> [u8; 24]
    ensures { result ≡ id_or ident.now id.now }
{
    if is_zero(id) { made_msg_id(ident) } else { *id }
}

/// A CodedCharSetId of 0 stands for UTF-8.
fn set_or(ccsid: i32) -> i32
    ensures { result ≡ set_or ccsid }
{
    if ccsid == 0 { 1208 } else { ccsid }
}

/// The moment from which on a message is expired; none where Expiry is below 0.
pub fn deadline_of(expiry: i32, moment: u64) -> Option<u64>
    requires { moment ≤ last_moment }
    ensures value { result ≡ deadline_of expiry moment }
    ensures small { IfSome result (λ d. d < 2 ^ 64 - 1) }
{
    if expiry < 0 {
        None
    } else {
        Some(moment + 100 * expiry as u64)
    }
}

/// The descriptor, filled in.
fn filled(
    ident: &Ident,
    appl: &Appl,
    path: &[PathStep],
    md: &Md,
    own: &QName,
    defs: &Defs,
    moment: u64,
) -> Md
    requires { moment ≤ last_moment }
    ensures { result ≡ filled ident.now appl.now path.now md.now (record { own = own.now; definitions = defs.now.definitions; moment = moment }) }
{
    let first = defs.queue(&first_on(path));
    let Replies { queue, qmgr } = replies_to(own, defs, &md.reply_to_q, &md.reply_to_q_mgr);
    let (date, time) = put_stamp(moment);
    let msg_id = id_or(ident, &md.msg_id);
    let user = appl.user;
    let name = appl.name;
    let mut filled = *md;
    filled.coded_char_set_id = set_or(md.coded_char_set_id);
    filled.priority = priority_or(default_priority(first), md.priority);
    filled.persistence = persistence_or(default_persistent(first), md.persistence);
    filled.msg_id = msg_id;
    filled.backout_count = 0;
    filled.reply_to_q = queue;
    filled.reply_to_q_mgr = qmgr;
    filled.user_identifier = user;
    filled.put_appl_type = 6;
    filled.put_appl_name = name;
    filled.put_date = date;
    filled.put_time = time;
    filled
}

/// A message that is put, all but its body.
pub fn make_draft(
    ident: &Ident,
    appl: &Appl,
    end: &RouteEnd,
    path: &[PathStep],
    md: &Md,
    own: &QName,
    defs: &Defs,
    moment: u64,
) -> Draft
    requires { moment ≤ last_moment }
    ensures message { (body : List ℕ) → message_of result body ≡ message_put ident.now appl.now (record { end = end.now; path = path.now }) md.now body (record { own = own.now; definitions = defs.now.definitions; moment = moment }) }
    ensures deadline { IfSome result.deadline (λ d. d < 2 ^ 64 - 1) }
{
    Draft {
        ident: *ident,
        md: filled(ident, appl, path, md, own, defs, moment),
        route: dest_at(end),
        deadline: deadline_of(md.expiry, moment),
    }
}
