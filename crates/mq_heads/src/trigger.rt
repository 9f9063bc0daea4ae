//! The trigger message as bytes (IBM MQ reference, MQTM, version 1).

ghost use Rattle.std.specs.Prelude.{◌≡◌, ◌≤◌, length, take, IfOk, Ok};
ghost use Rattle.mq_heads.specs.Headers.{tm_bytes, tm_in, tm_read};

use crate::headers::Tm;
use mq_message::fields::{array_at, long_at, put_array, put_long};
use mq_message::{HeadFault, id_fault};

/// The length of an MQTM of version 1, in bytes.
pub const TM_SIZE: usize = 684;

/// The trigger message's bytes: the manual's layout, numbers highest byte first.
pub fn tm_to_bytes(header: &Tm) -> [u8; 684]
    ensures bytes { result ≡ tm_bytes header.now }
    // what is written is read back
    ensures back { tm_read result ≡ Ok header.now }
{
    let mut bytes = [0; TM_SIZE];
    put_array(&mut bytes, 0, b"TM  ");
    put_long(&mut bytes, 4, 1);
    put_array(&mut bytes, 8, &header.q_name);
    put_array(&mut bytes, 56, &header.process_name);
    put_array(&mut bytes, 104, &header.trigger_data);
    put_long(&mut bytes, 168, header.appl_type);
    put_array(&mut bytes, 172, &header.appl_id);
    put_array(&mut bytes, 428, &header.env_data);
    put_array(&mut bytes, 556, &header.user_data);
    bytes
}

/// The trigger message in the first 684 bytes.
///
/// # Errors
///
/// The first of `Short`, `BadId`, `BadVersion` that applies.
pub fn tm_of(bytes: &[u8]) -> Result<Tm, HeadFault>
    ensures value { result ≡ tm_read bytes.now }
    ensures exact { IfOk result (λ h. tm_bytes h ≡ take 684 bytes.now) }
{
    read_tm(bytes)
}

#[tactic(auto, unfolding(crate::specs::Headers::tm_read))]
fn read_tm(bytes: &[u8]) -> Result<Tm, HeadFault>
    ensures { result ≡ tm_read bytes.now }
{
    if bytes.len() < TM_SIZE {
        return Err(HeadFault::Short);
    }
    match id_fault(bytes, 0, b"TM  ") {
        Some(fault) => Err(fault),
        None => Ok(tm_at(bytes)),
    }
}

fn tm_at(bytes: &[u8]) -> Tm
    requires { 684 ≤ length bytes.now }
    ensures { result ≡ tm_in bytes.now }
{
    Tm {
        q_name: array_at::<48>(bytes, 8),
        process_name: array_at::<48>(bytes, 56),
        trigger_data: array_at::<64>(bytes, 104),
        appl_type: long_at(bytes, 168),
        appl_id: array_at::<256>(bytes, 172),
        env_data: array_at::<128>(bytes, 428),
        user_data: array_at::<128>(bytes, 556),
    }
}
