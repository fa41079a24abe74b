ghost use Rattle.std.specs.Prelude.{◌≡◌, ◌≤◌, ◌+◌, true, false, ◌++◌, ◌∷◌, [], List, length, IfSome, MatchOption, OnOk, OnErr};
ghost use Rattle.ch_config.specs.declared.config.Config.{Config};
ghost use Rattle.ch_socket.specs.Sockets.{IsReady, IsOpen, IsSocketOf};
ghost use Rattle.ch_socket.specs.Turns.{StaysReady};
ghost use Rattle.ch_transcript.specs.Progress.{Socket, has_socket, is_live, socket_of, with_socket};
ghost use Rattle.ch_player.specs.Seats.{AreSeats, AreReady};
ghost use Rattle.ch_player.specs.Rounding.{AllOpen};
ghost use Rattle.ch_player.specs.Taking.{AreSeatsBut, seat_of};

use crate::seat::Seat;
use ch_base::Memory;
use ch_session::Session;

/// Whether there is a socket with this number.
pub fn has_socket(seats: &[Option<Seat>], number: u64) -> bool
    ensures has { (sockets : List Socket) → AreSeats seats.now sockets → result ≡ has_socket sockets number }
    ensures there { result ≡ true → (1 ≤ number) × (number ≤ length seats.now) }
{
    1 <= number && number <= seats.len() as u64
}

/// Takes the session of a socket out of its seat, where its connection is open.
pub fn take_session(seats: &mut Vec<Option<Seat>>, number: u64) -> Option<Session>
    requires there { (1 ≤ number) × (number ≤ length seats.old.items) }
    requires open { AllOpen seats.old.items }
    ensures taken { (sockets : List Socket) → AreSeats seats.old.items sockets → MatchOption result
        ((is_live sockets number ≡ false) × AreSeats seats.new.items sockets)
        (λ session. (is_live sockets number ≡ true) × IsOpen number session (socket_of sockets number) × AreSeatsBut number seats.new.items sockets) }
    ensures ready { (config : Config) → AreReady config seats.old.items → IfSome result (IsReady config number) }
    ensures others { (config : Config) → AreReady config seats.old.items → AreReady config seats.new.items }
    ensures open { AllOpen seats.new.items }
    ensures count { length seats.new.items ≡ length seats.old.items }
{
    match seats[number as usize - 1].take() {
        Some(seat) => Some(seat.session),
        None => None,
    }
}

/// Puts what is left of a socket's turn into its seat.
pub fn put_session(seats: &mut Vec<Option<Seat>>, number: u64, session: Option<Session>)
    requires there { (1 ≤ number) × (number ≤ length seats.old.items) }
    requires open { AllOpen seats.old.items }
    ensures put { (sockets : List Socket) (s : Socket) → AreSeatsBut number seats.old.items sockets → IsSocketOf number session s →
        AreSeats seats.new.items (with_socket sockets number s) }
    ensures ready { (config : Config) → AreReady config seats.old.items → StaysReady config number session → AreReady config seats.new.items }
    ensures open { AllOpen seats.new.items }
    ensures count { length seats.new.items ≡ length seats.old.items }
{
    seats[number as usize - 1] = seat_of(session);
}

/// The seat of a session, which is open.
pub fn seat_of(session: Option<Session>) -> Option<Seat>
    ensures { result ≡ seat_of session }
{
    match session {
        Some(session) => Some(Seat {
            session,
            is_open: true,
        }),
        None => None,
    }
}

/// Adds the seat of the next socket, which has this session, or none where it was refused.
pub fn add_session(seats: &mut Vec<Option<Seat>>, session: Option<Session>) -> Result<(), Memory>
    requires { AllOpen seats.old.items }
    ensures added { (sockets : List Socket) (s : Socket) → AreSeats seats.old.items sockets → IsSocketOf (length sockets + 1) session s →
        OnOk result (AreSeats seats.new.items (sockets ++ s ∷ [])) }
    ensures ready { (config : Config) → AreReady config seats.old.items → StaysReady config (length seats.old.items + 1) session →
        OnOk result (AreReady config seats.new.items) }
    ensures open { OnOk result (AllOpen seats.new.items) }
    ensures count { OnOk result (length seats.new.items ≡ length seats.old.items + 1) }
    ensures err { OnErr result (seats.new.items ≡ seats.old.items) }
{
    seats.reserve(1)?;
    seats.push_reserved(seat_of(session));
    Ok(())
}
