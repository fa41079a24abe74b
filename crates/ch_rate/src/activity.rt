ghost use Rattle.std.specs.Prelude.{◌≡◌, ◌≤◌};
ghost use Rattle.ch_base.specs.declared.limits.TheConstants.{LATEST_MOMENT};

use crate::limits::{PATIENCE, SILENCE};
use std::marker::Model;

/// What a silent connection is due.
#[derive(Clone, Copy, Debug, PartialEq, Eq)]
pub enum Due {
    /// Neither of the others.
    Nothing,
    /// A ping.
    Ping,
    /// The close of the connection, which didn't answer a ping.
    Expired,
}

/// When a connection was last heard, and since when a ping is out.
#[derive(Debug, Drop)]
pub struct Activity {
    heard: u64,
    pinged: Option<u64>,
}

impl Model for Activity {
    ghost use Rattle.ch_rate.specs.Quiet.{Quiet};

    ghost Value = { Quiet };

    ghost view = { λ a. record { heard = a.heard; pinged = a.pinged } };
}

impl Activity {
    ghost use Rattle.ch_rate.specs.Quiet.{quiet_from, due_of, quiet_after};

    /// A connection that was last heard at the moment `now`, with no ping out.
    pub fn new(now: u64) -> Activity
        requires { now ≤ LATEST_MOMENT }
        ensures { result ≡ quiet_from now }
    {
        Activity {
            heard: now,
            pinged: None,
        }
    }

    /// Notes that the connection was heard at the moment `now`, which ends a ping.
    pub fn heard(&mut self, now: u64)
        requires { now ≤ LATEST_MOMENT }
        ensures { self.new ≡ quiet_from now }
    {
        self.heard = now;
        self.pinged = None;
    }

    /// What the connection is due at the moment `now`.
    ///
    /// It is a ping exactly where none is out and `now` is at least the last heard moment plus [`SILENCE`]; the
    /// ping is then out since `now`. It is `Expired` exactly where a ping is out and `now` is at least the
    /// moment since when plus [`PATIENCE`].
    pub fn due(&mut self, now: u64) -> Due
        requires { now ≤ LATEST_MOMENT }
        ensures due { result ≡ due_of self.old now }
        ensures after { self.new ≡ quiet_after self.old now }
    {
        match self.pinged {
            None if now.saturating_sub(self.heard) >= SILENCE => {
                self.pinged = Some(now);
                Due::Ping
            }
            Some(since) if now.saturating_sub(since) >= PATIENCE => Due::Expired,
            _ => Due::Nothing,
        }
    }
}
