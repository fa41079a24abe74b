ghost use Rattle.std.specs.Prelude.{◌≡◌, [], ◌∷◌, IfOk, map};
ghost use Rattle.ch_requests.specs.Routes.{route_of, parts_of, route_below, route_by_word, decoded_route, decoded};

use ch_base::{Memory, Text};
use ch_requests::Route;
use percent_encoding::{DecodeError, percent_decode_str};
use std::alloc::Global;

/// What a path asks for on the server of the app with this id, with its name as sent; none where it asks for nothing.
pub(crate) fn route_of(alloc: Global, app_id: &str, path: &str) -> Result<Option<Route>, Memory>
    ensures { IfOk result (λ route. route ≡ route_of app_id.now path.now) }
{
    let parts = parts_of(alloc, path)?;
    let [front, apps, id, below @ ..] = parts.as_slice() else {
        return Ok(None);
    };
    if front.is_empty() && *apps == "apps" && *id == app_id {
        route_below(alloc, below)
    } else {
        Ok(None)
    }
}

/// The parts of a path, between its slashes.
fn parts_of(alloc: Global, path: &str) -> Result<Vec<&str>, Memory>
    ensures { IfOk result (λ parts. map (λ part. part.now) parts.items ≡ parts_of path.now) }
{
    let parts = path.split('/').collect(alloc)?;
    Ok(parts)
}

/// What the parts behind the app's id ask for.
fn route_below(alloc: Global, parts: &[&str]) -> Result<Option<Route>, Memory>
    ensures { IfOk result (λ route. route ≡ route_below (map (λ part. part.now) parts.now)) }
{
    match parts {
        [word] => Ok(route_by_word(word)),
        [word, name] => channel_route(alloc, word, name),
        [word, name, more] => route_by_name(alloc, word, name, more),
        _ => Ok(None),
    }
}

fn route_by_word(word: &str) -> Option<Route>
    ensures { result ≡ route_by_word word.now }
{
    match word {
        "events" => Some(Route::Events),
        "batch_events" => Some(Route::BatchEvents),
        "channels" => Some(Route::Channels),
        _ => None,
    }
}

fn channel_route(alloc: Global, word: &str, name: &str) -> Result<Option<Route>, Memory>
    ensures { IfOk result (λ route. route ≡ route_below (word.now ∷ name.now ∷ [])) }
{
    if word == "channels" && !name.is_empty() {
        Ok(Some(Route::Channel(Text::of(alloc, name)?)))
    } else {
        Ok(None)
    }
}

fn route_by_name(alloc: Global, word: &str, name: &str, more: &str) -> Result<Option<Route>, Memory>
    ensures { IfOk result (λ route. route ≡ route_below (word.now ∷ name.now ∷ more.now ∷ [])) }
{
    if name.is_empty() {
        return Ok(None);
    }
    match (word, more) {
        ("channels", "users") => Ok(Some(Route::ChannelUsers(Text::of(alloc, name)?))),
        ("users", "terminate_connections") => Ok(Some(Route::Terminate(Text::of(alloc, name)?))),
        _ => Ok(None),
    }
}

/// The route with its name decoded; none where that isn't UTF-8.
pub(crate) fn decoded_route(alloc: Global, route: Route) -> Result<Option<Route>, Memory>
    ensures { IfOk result (λ decoded. decoded ≡ decoded_route route) }
{
    match route {
        Route::Channel(name) => Ok(decoded(alloc, name.as_str())?.map(Route::Channel)),
        Route::ChannelUsers(name) => Ok(decoded(alloc, name.as_str())?.map(Route::ChannelUsers)),
        Route::Terminate(name) => Ok(decoded(alloc, name.as_str())?.map(Route::Terminate)),
        route => Ok(Some(route)),
    }
}

/// What a name stands for (RFC 3986, section 2.1); none where that isn't UTF-8.
fn decoded(alloc: Global, name: &str) -> Result<Option<Text>, Memory>
    ensures { IfOk result (λ text. text ≡ decoded name.now) }
{
    match percent_decode_str(name).decode_utf8(alloc) {
        Ok(text) => Ok(Some(Text::from_string(text.into_owned(alloc)?))),
        Err(DecodeError::Utf8(_)) => Ok(None),
        Err(DecodeError::OutOfMemory) => Err(Memory),
    }
}
