//! What a line of a script puts: the descriptor and the body.
ghost use Rattle.std.specs.Prelude.{◌≡◌, IfOk, replicate};
ghost use Rattle.mq_spec_node.specs.Scripts.{id_or, put_md, body_bytes, last_id, reply_correl};

use mq_base::{Items, NoMemory};
use mq_message::{Bytes, Md};
use mq_spec_node::below::{Body, PutOptions};
use std::alloc::Global;

/// An id; zero where none is given.
pub(crate) fn id_or(id: &Option<[u8; 24]>) -> [u8; 24]
    ensures { result ≡ id_or id.now }
{
    match id {
        None => [0; 24],
        Some(id) => *id,
    }
}

/// MsgId of the message that was got last; zero where there is none.
fn last_id(last: &Option<Md>) -> [u8; 24]
    ensures { result ≡ last_id last.now }
{
    match last {
        None => [0; 24],
        Some(md) => md.msg_id,
    }
}

/// CorrelId of a reply: the line's, else MsgId of the message that was got last.
pub(crate) fn reply_correl(id: &Option<[u8; 24]>, last: &Option<Md>) -> [u8; 24]
    ensures { result ≡ reply_correl id.now last.now }
{
    match id {
        None => last_id(last),
        Some(id) => *id,
    }
}

/// The descriptor of a put, with this CorrelId.
pub(crate) fn put_md(options: &PutOptions, correl: [u8; 24]) -> Md
    ensures { result ≡ put_md options.now correl }
{
    Md {
        report: 0,
        msg_type: options.msg_type,
        expiry: options.expiry,
        feedback: options.feedback,
        encoding: 273,
        coded_char_set_id: 1208,
        format: options.format,
        priority: options.priority,
        persistence: options.persistence,
        msg_id: options.msg_id,
        correl_id: correl,
        backout_count: 0,
        reply_to_q: *options.reply_to_q.bytes(),
        reply_to_q_mgr: *options.reply_to_q_mgr.bytes(),
        user_identifier: [b' '; 12],
        accounting_token: [0; 32],
        appl_identity_data: options.appl_identity_data,
        put_appl_type: 0,
        put_appl_name: [b' '; 28],
        put_date: [b' '; 8],
        put_time: [b' '; 8],
        appl_origin_data: [b' '; 4],
    }
}

/// So many times this byte.
fn filled(alloc: Global, count: u32, byte: u8) -> Result<Bytes, NoMemory>
    ensures { IfOk result (λ bytes. bytes ≡ replicate count byte) }
{
    Ok(Items::from_vec(vec![in alloc; byte; count as usize]?))
}

/// The body of a put.
pub(crate) fn body_bytes(alloc: Global, body: &Body) -> Result<Bytes, NoMemory>
    ensures { IfOk result (λ bytes. bytes ≡ body_bytes body.now) }
{
    match body {
        Body::Text(text) => Ok(Items::from_slice(alloc, text.as_slice())?),
        Body::Fill(count, byte) => filled(alloc, *count, *byte),
    }
}
