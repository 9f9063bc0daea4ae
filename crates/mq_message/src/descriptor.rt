//! Message descriptors as bytes (IBM MQ reference, MQMD, version 1), and the ids that a manager makes.

ghost use Rattle.std.specs.Prelude.{◌≡◌, ◌+◌, ◌≤◌, codes, length, take, IfOk, Ok};
ghost use Rattle.mq_message.specs.Descriptor.{md_bytes, md_in, md_read, made_id, head_fault, id_fault};

use crate::fields::{array_at, long_at, put_array, put_long, put_u8, put_u64};
use crate::head::HeadFault;
use crate::message::{Ident, Md};

/// How many bytes a descriptor has.
pub const MD_SIZE: usize = 324;

/// The descriptor's bytes.
pub fn md_to_bytes(md: &Md) -> [u8; 324]
    ensures bytes { result ≡ md_bytes md.now }
    // what is written is read back
    ensures back { md_read result ≡ Ok md.now }
{
    let mut bytes = [0; MD_SIZE];
    put_array(&mut bytes, 0, b"MD  ");
    put_long(&mut bytes, 4, 1);
    put_long(&mut bytes, 8, md.report);
    put_long(&mut bytes, 12, md.msg_type);
    put_long(&mut bytes, 16, md.expiry);
    put_long(&mut bytes, 20, md.feedback);
    put_long(&mut bytes, 24, md.encoding);
    put_long(&mut bytes, 28, md.coded_char_set_id);
    put_array(&mut bytes, 32, &md.format);
    put_long(&mut bytes, 40, md.priority);
    put_long(&mut bytes, 44, md.persistence);
    put_array(&mut bytes, 48, &md.msg_id);
    put_array(&mut bytes, 72, &md.correl_id);
    put_long(&mut bytes, 96, md.backout_count);
    put_array(&mut bytes, 100, &md.reply_to_q);
    put_array(&mut bytes, 148, &md.reply_to_q_mgr);
    put_array(&mut bytes, 196, &md.user_identifier);
    put_array(&mut bytes, 208, &md.accounting_token);
    put_array(&mut bytes, 240, &md.appl_identity_data);
    put_long(&mut bytes, 272, md.put_appl_type);
    put_array(&mut bytes, 276, &md.put_appl_name);
    put_array(&mut bytes, 304, &md.put_date);
    put_array(&mut bytes, 312, &md.put_time);
    put_array(&mut bytes, 320, &md.appl_origin_data);
    bytes
}

fn md_at(bytes: &[u8]) -> Md
    requires { 324 ≤ length bytes.now }
    ensures { result ≡ md_in bytes.now }
{
    Md {
        report: long_at(bytes, 8),
        msg_type: long_at(bytes, 12),
        expiry: long_at(bytes, 16),
        feedback: long_at(bytes, 20),
        encoding: long_at(bytes, 24),
        coded_char_set_id: long_at(bytes, 28),
        format: array_at::<8>(bytes, 32),
        priority: long_at(bytes, 40),
        persistence: long_at(bytes, 44),
        msg_id: array_at::<24>(bytes, 48),
        correl_id: array_at::<24>(bytes, 72),
        backout_count: long_at(bytes, 96),
        reply_to_q: array_at::<48>(bytes, 100),
        reply_to_q_mgr: array_at::<48>(bytes, 148),
        user_identifier: array_at::<12>(bytes, 196),
        accounting_token: array_at::<32>(bytes, 208),
        appl_identity_data: array_at::<32>(bytes, 240),
        put_appl_type: long_at(bytes, 272),
        put_appl_name: array_at::<28>(bytes, 276),
        put_date: array_at::<8>(bytes, 304),
        put_time: array_at::<8>(bytes, 312),
        appl_origin_data: array_at::<4>(bytes, 320),
    }
}

/// The descriptor in the first 324 bytes.
///
/// # Errors
///
/// The first of `Short`, `BadId`, `BadVersion` that applies.
pub fn md_of(bytes: &[u8]) -> Result<Md, HeadFault>
    ensures value { result ≡ md_read bytes.now }
    ensures exact { IfOk result (λ m. md_bytes m ≡ take 324 bytes.now) }
{
    read_md(bytes)
}

#[tactic(auto, unfolding(crate::specs::Descriptor::md_read))]
fn read_md(bytes: &[u8]) -> Result<Md, HeadFault>
    ensures { result ≡ md_read bytes.now }
{
    if bytes.len() < MD_SIZE {
        return Err(HeadFault::Short);
    }
    match id_fault(bytes, 0, b"MD  ") {
        Some(fault) => Err(fault),
        None => Ok(md_at(bytes)),
    }
}

/// What keeps a structure with that id and version 1 from beginning at a place.
pub fn id_fault(bytes: &[u8], place: usize, id: &[u8; 4]) -> Option<HeadFault>
    requires { place + 8 ≤ length bytes.now }
    ensures { result ≡ id_fault id.now place bytes.now }
{
    if &bytes[place..place + 4] != id.as_slice() {
        return Some(HeadFault::BadId);
    }
    if long_at(bytes, place + 4) != 1 {
        return Some(HeadFault::BadVersion);
    }
    None
}

/// The id of a message that its application gave none: `MQNI`, three zero bytes, and the ident
/// (this project's choice).
pub fn made_msg_id(ident: &Ident) -> [u8; 24]
    ensures { result ≡ made_id ident.now }
{
    let mut bytes = [0; 24];
    put_array(&mut bytes, 0, b"MQNI");
    put_array(&mut bytes, 4, &[0; 3]);
    put_u8(&mut bytes, 7, ident.manager);
    put_u64(&mut bytes, 8, ident.incarnation);
    put_u64(&mut bytes, 16, ident.number);
    bytes
}
