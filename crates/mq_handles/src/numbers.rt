//! Places of connections and handles by their numbers. The numbers rise, so a place is found by halving.
ghost use Rattle.std.specs.Prelude.{◌≡◌, position};
ghost use Rattle.mq_handles.specs.Rising.{AreRising, connection_number, handle_number, has_number, has_handle_number};

use crate::seat::Seat;
use mq_calls::Handle;

/// The place of the connection of a number.
pub fn place_of_connection(seats: &[Seat], number: u64) -> Option<usize>
    requires { AreRising connection_number seats.now }
    ensures { result ≡ position (has_number number) seats.now }
{
    let at = seats.partition_point(|seat| seat.number() < number);
    if at == seats.len() {
        return None;
    }
    if seats[at].number() == number {
        Some(at)
    } else {
        None
    }
}

/// The place of the handle of a number.
pub fn place_of_handle(handles: &[Handle], number: u64) -> Option<usize>
    requires { AreRising handle_number handles.now }
    ensures { result ≡ position (has_handle_number number) handles.now }
{
    let at = handles.partition_point(|handle| handle.number < number);
    if at == handles.len() {
        return None;
    }
    if handles[at].number == number {
        Some(at)
    } else {
        None
    }
}
