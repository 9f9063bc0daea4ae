//! Fields of fixed structures: numbers in big-endian order, arrays as they are.

ghost use Rattle.std.specs.Prelude.{◌≡◌, ◌+◌, ◌≤◌, ◌++◌, length, take};
ghost use Rattle.mq_message.specs.Layout.{part, long_bytes, long_of, unsigned_bytes, unsigned_of};

use byteorder::{BigEndian, ByteOrder};

/// The signed number in the four bytes at a place.
#[tactic(auto, unfolding(crate::specs::Layout::long_of))]
pub fn long_at(bytes: &[u8], place: usize) -> i32
    requires { place + 4 ≤ length bytes.now }
    ensures { result ≡ long_of (part place 4 bytes.now) }
{
    BigEndian::read_i32(&bytes[place..place + 4])
}

/// The unsigned number in the four bytes at a place.
#[tactic(auto, unfolding(crate::specs::Layout::unsigned_of))]
pub fn u32_at(bytes: &[u8], place: usize) -> u32
    requires { place + 4 ≤ length bytes.now }
    ensures { result ≡ unsigned_of 4 (part place 4 bytes.now) }
{
    BigEndian::read_u32(&bytes[place..place + 4])
}

/// The unsigned number in the eight bytes at a place.
#[tactic(auto, unfolding(crate::specs::Layout::unsigned_of))]
pub fn u64_at(bytes: &[u8], place: usize) -> u64
    requires { place + 8 ≤ length bytes.now }
    ensures { result ≡ unsigned_of 8 (part place 8 bytes.now) }
{
    BigEndian::read_u64(&bytes[place..place + 8])
}

/// The bytes at a place.
pub fn array_at<const N: usize>(bytes: &[u8], place: usize) -> [u8; N]
    requires { place + N ≤ length bytes.now }
    ensures { result ≡ part place N bytes.now }
{
    let mut array = [0; N];
    array.copy_from_slice(&bytes[place..place + N]);
    array
}

/// Writes bytes at a place, behind what stands there already. What stands further on may change.
pub fn put_array<const N: usize>(bytes: &mut [u8], place: usize, array: &[u8; N])
    requires { place + N ≤ length bytes.old }
    ensures { take (place + N) bytes.new ≡ take place bytes.old ++ array.now }
{
    bytes[place..place + N].copy_from_slice(array);
}

/// Writes a signed number of four bytes at a place, as `put_array` does.
#[tactic(auto, unfolding(crate::specs::Layout::long_bytes))]
pub fn put_long(bytes: &mut [u8], place: usize, number: i32)
    requires { place + 4 ≤ length bytes.old }
    ensures { take (place + 4) bytes.new ≡ take place bytes.old ++ long_bytes number }
{
    BigEndian::write_i32(&mut bytes[place..], number);
}

/// Writes a byte at a place, as `put_array` does.
pub fn put_u8(bytes: &mut [u8], place: usize, number: u8)
    requires { place + 1 ≤ length bytes.old }
    ensures { take (place + 1) bytes.new ≡ take place bytes.old ++ unsigned_bytes 1 number }
{
    put_array(bytes, place, &[number]);
}

/// Writes an unsigned number of four bytes at a place, as `put_array` does.
#[tactic(auto, unfolding(crate::specs::Layout::unsigned_bytes))]
pub fn put_u32(bytes: &mut [u8], place: usize, number: u32)
    requires { place + 4 ≤ length bytes.old }
    ensures { take (place + 4) bytes.new ≡ take place bytes.old ++ unsigned_bytes 4 number }
{
    BigEndian::write_u32(&mut bytes[place..], number);
}

/// Writes an unsigned number of eight bytes at a place, as `put_array` does.
#[tactic(auto, unfolding(crate::specs::Layout::unsigned_bytes))]
pub fn put_u64(bytes: &mut [u8], place: usize, number: u64)
    requires { place + 8 ≤ length bytes.old }
    ensures { take (place + 8) bytes.new ≡ take place bytes.old ++ unsigned_bytes 8 number }
{
    let mut array = [0; 8];
    BigEndian::write_u64(&mut array, number);
    put_array(bytes, place, &array);
}
