use ch_session::Session;

/// The session of a socket. One that a Kill closed stays until its losses are made.
#[derive(Drop)]
pub struct Seat {
    pub session: Session,
    pub is_open: bool,
}
