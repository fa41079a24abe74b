ghost use Rattle.std.specs.Prelude.{◌≡◌, ◌≤◌, true, List, length, OnOk};
ghost use Rattle.ch_transcript.specs.Progress.{Socket, is_live, with_socket, closed, socket_of};
ghost use Rattle.ch_transcript.specs.Rounds.{tells, tells_all};
ghost use Rattle.ch_player.specs.Seats.{AreSeats, SameSessions, AddsTelling};

use crate::seat::Seat;
use ch_base::{Frame, FrameList, Memory, Shared, UNAUTHORIZED};
use ch_socket::{put_end, put_printed};
use std::alloc::Global;

/// Tells the sockets the frames that were taken for them, one after another, by their texts.
pub fn tell_all(
    alloc: Global,
    seats: &mut Vec<Option<Seat>>,
    mut frames: FrameList,
    out: &mut Vec<u8>,
) -> Result<(), Memory>
    ensures tells { (sockets : List Socket) → AreSeats seats.old.items sockets →
        OnOk result (AddsTelling seats.new.items out.old.items out.new.items (tells_all sockets frames)) }
    ensures sessions { SameSessions seats.old.items seats.new.items }
{
    while let Some(item) = frames.take_front() {
        tell(alloc, seats, item, out)?;
    }
    Ok(())
}

/// Tells an open socket a frame; a Kill closes it. A frame for another socket is dropped.
fn tell(
    alloc: Global,
    seats: &mut Vec<Option<Seat>>,
    item: Shared,
    out: &mut Vec<u8>,
) -> Result<(), Memory>
    ensures tells { (sockets : List Socket) → AreSeats seats.old.items sockets →
        OnOk result (AddsTelling seats.new.items out.old.items out.new.items (tells sockets item)) }
    ensures sessions { SameSessions seats.old.items seats.new.items }
{
    let number = item.socket();
    if !is_live(seats.as_slice(), number) {
        return Ok(());
    }
    let printed = item.into_printed();
    match printed.frame() {
        Frame::Kill => {
            put_end(alloc, out, number, UNAUTHORIZED)?;
            close(seats, number);
            Ok(())
        }
        _ => put_printed(alloc, out, number, &printed),
    }
}

/// Whether there is this socket, and its connection is open.
pub fn is_live(seats: &[Option<Seat>], number: u64) -> bool
    ensures live { (sockets : List Socket) → AreSeats seats.now sockets → result ≡ is_live sockets number }
    ensures there { result ≡ true → (1 ≤ number) × (number ≤ length seats.now) }
{
    if number == 0 || number > seats.len() as u64 {
        return false;
    }
    match &seats[number as usize - 1] {
        Some(seat) => seat.is_open,
        None => false,
    }
}

/// Closes the socket's connection; its session stays.
fn close(seats: &mut Vec<Option<Seat>>, number: u64)
    requires there { (1 ≤ number) × (number ≤ length seats.old.items) }
    ensures closed { (sockets : List Socket) → AreSeats seats.old.items sockets →
        AreSeats seats.new.items (with_socket sockets number (closed (socket_of sockets number))) }
    ensures sessions { SameSessions seats.old.items seats.new.items }
{
    if let Some(seat) = &mut seats[number as usize - 1] {
        seat.is_open = false;
    }
}
