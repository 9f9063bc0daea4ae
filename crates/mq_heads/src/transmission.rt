//! The transmission queue header as bytes (IBM MQ reference, MQXQH, version 1).

ghost use Rattle.std.specs.Prelude.{◌≡◌, ◌≤◌, codes, length, take, IfOk, Ok};
ghost use Rattle.mq_message.specs.Descriptor.{head_fault, unless};
ghost use Rattle.mq_message.specs.Layout.{part};
ghost use Rattle.mq_heads.specs.Headers.{xqh_bytes, xqh_in, xqh_read};

use crate::headers::Xqh;
use mq_message::fields::{array_at, put_array, put_long};
use mq_message::{HeadFault, id_fault, md_of, md_to_bytes};

/// The length of an MQXQH of version 1, in bytes.
pub const XQH_SIZE: usize = 428;

/// The transmission queue header's bytes: the manual's layout, numbers highest byte first.
pub fn xqh_to_bytes(header: &Xqh) -> [u8; 428]
    ensures bytes { result ≡ xqh_bytes header.now }
    // what is written is read back
    ensures back { xqh_read result ≡ Ok header.now }
{
    let mut bytes = [0; XQH_SIZE];
    put_array(&mut bytes, 0, b"XQH ");
    put_long(&mut bytes, 4, 1);
    put_array(&mut bytes, 8, &header.remote_q_name);
    put_array(&mut bytes, 56, &header.remote_q_mgr_name);
    put_array(&mut bytes, 104, &md_to_bytes(&header.msg_desc));
    bytes
}

/// The transmission queue header in the first 428 bytes.
///
/// # Errors
///
/// The first that applies of `Short`, `BadId`, `BadVersion`, and then `BadId` and `BadVersion` of the
/// descriptor in it.
pub fn xqh_of(bytes: &[u8]) -> Result<Xqh, HeadFault>
    ensures value { result ≡ xqh_read bytes.now }
    ensures exact { IfOk result (λ h. xqh_bytes h ≡ take 428 bytes.now) }
{
    read_xqh(bytes)
}

#[tactic(auto, unfolding(crate::specs::Headers::xqh_read))]
fn read_xqh(bytes: &[u8]) -> Result<Xqh, HeadFault>
    ensures { result ≡ xqh_read bytes.now }
{
    if bytes.len() < XQH_SIZE {
        return Err(HeadFault::Short);
    }
    match id_fault(bytes, 0, b"XQH ") {
        Some(fault) => Err(fault),
        None => xqh_inside(bytes),
    }
}

fn xqh_inside(bytes: &[u8]) -> Result<Xqh, HeadFault>
    requires { 428 ≤ length bytes.now }
    ensures { result ≡ unless (head_fault 324 (codes "MD  ") (part 104 324 bytes.now)) (xqh_in bytes.now) }
{
    match md_of(&bytes[104..428]) {
        Err(fault) => Err(fault),
        Ok(msg_desc) => Ok(Xqh {
            remote_q_name: array_at::<48>(bytes, 8),
            remote_q_mgr_name: array_at::<48>(bytes, 56),
            msg_desc,
        }),
    }
}
