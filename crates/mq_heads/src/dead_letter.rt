//! The dead-letter header as bytes (IBM MQ reference, MQDLH, version 1).

ghost use Rattle.std.specs.Prelude.{◌≡◌, ◌≤◌, length, take, IfOk, Ok};
ghost use Rattle.mq_heads.specs.Headers.{dlh_bytes, dlh_in, dlh_read};

use crate::headers::Dlh;
use mq_message::fields::{array_at, long_at, put_array, put_long};
use mq_message::{HeadFault, id_fault};

/// The length of an MQDLH of version 1, in bytes.
pub const DLH_SIZE: usize = 172;

/// The dead-letter header's bytes: the manual's layout, numbers highest byte first.
pub fn dlh_to_bytes(header: &Dlh) -> [u8; 172]
    ensures bytes { result ≡ dlh_bytes header.now }
    // what is written is read back
    ensures back { dlh_read result ≡ Ok header.now }
{
    let mut bytes = [0; DLH_SIZE];
    put_array(&mut bytes, 0, b"DLH ");
    put_long(&mut bytes, 4, 1);
    put_long(&mut bytes, 8, header.reason);
    put_array(&mut bytes, 12, &header.dest_q_name);
    put_array(&mut bytes, 60, &header.dest_q_mgr_name);
    put_long(&mut bytes, 108, header.encoding);
    put_long(&mut bytes, 112, header.coded_char_set_id);
    put_array(&mut bytes, 116, &header.format);
    put_long(&mut bytes, 124, header.put_appl_type);
    put_array(&mut bytes, 128, &header.put_appl_name);
    put_array(&mut bytes, 156, &header.put_date);
    put_array(&mut bytes, 164, &header.put_time);
    bytes
}

/// The dead-letter header in the first 172 bytes.
///
/// # Errors
///
/// The first of `Short`, `BadId`, `BadVersion` that applies.
pub fn dlh_of(bytes: &[u8]) -> Result<Dlh, HeadFault>
    ensures value { result ≡ dlh_read bytes.now }
    ensures exact { IfOk result (λ h. dlh_bytes h ≡ take 172 bytes.now) }
{
    read_dlh(bytes)
}

#[tactic(auto, unfolding(crate::specs::Headers::dlh_read))]
fn read_dlh(bytes: &[u8]) -> Result<Dlh, HeadFault>
    ensures { result ≡ dlh_read bytes.now }
{
    if bytes.len() < DLH_SIZE {
        return Err(HeadFault::Short);
    }
    match id_fault(bytes, 0, b"DLH ") {
        Some(fault) => Err(fault),
        None => Ok(dlh_at(bytes)),
    }
}

fn dlh_at(bytes: &[u8]) -> Dlh
    requires { 172 ≤ length bytes.now }
    ensures { result ≡ dlh_in bytes.now }
{
    Dlh {
        reason: long_at(bytes, 8),
        dest_q_name: array_at::<48>(bytes, 12),
        dest_q_mgr_name: array_at::<48>(bytes, 60),
        encoding: long_at(bytes, 108),
        coded_char_set_id: long_at(bytes, 112),
        format: array_at::<8>(bytes, 116),
        put_appl_type: long_at(bytes, 124),
        put_appl_name: array_at::<28>(bytes, 128),
        put_date: array_at::<8>(bytes, 156),
        put_time: array_at::<8>(bytes, 164),
    }
}
