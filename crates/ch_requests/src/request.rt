ghost use Rattle.std.specs.Prelude.{◌≡◌};
ghost use Rattle.ch_requests.specs.Routes.{method_of};

use crate::head::Head;
use ch_base::{Bytes, Text};
use ch_sig::Params;

/// What a request is for (Pusher Channels documentation, HTTP API). Names and user ids are percent-decoded.
#[derive(Debug, Drop)]
pub enum Route {
    /// `POST /apps/<id>/events`
    Events,
    /// `POST /apps/<id>/batch_events`
    BatchEvents,
    /// `GET /apps/<id>/channels`
    Channels,
    /// `GET /apps/<id>/channels/<name>`
    Channel(Text),
    /// `GET /apps/<id>/channels/<name>/users`
    ChannelUsers(Text),
    /// `POST /apps/<id>/users/<user>/terminate_connections`
    Terminate(Text),
}

impl Route {
    /// The method of its requests.
    pub fn method(&self) -> &'static str
        ensures { result.now ≡ method_of self.now }
    {
        match self {
            Route::Events => "POST",
            Route::BatchEvents => "POST",
            Route::Channels => "GET",
            Route::Channel(_) => "GET",
            Route::ChannelUsers(_) => "GET",
            Route::Terminate(_) => "POST",
        }
    }
}

/// A whole request.
#[derive(Debug, Drop)]
pub struct Request {
    pub route: Route,
    /// The target's path as sent.
    pub path: Text,
    /// The members of the target's query, decoded, with their names in lower case.
    pub params: Params,
    /// Whether a name stands twice in the query.
    pub doubled: bool,
    /// Empty for a GET.
    pub body: Bytes,
}

/// What the bytes that came so far are.
#[derive(Debug, Drop)]
pub enum Look {
    /// More bytes are wanted.
    Need,
    /// The head asks for a WebSocket.
    Upgrade(Head),
    /// A whole request.
    Ready(Request),
    /// They are refused with this status.
    Refuse(u16),
}
