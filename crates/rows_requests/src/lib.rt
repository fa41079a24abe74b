//! Tests of requests to the HTTP API, from a request to the bytes of the reply, over the libraries.
#![tactic(auto)]

#[cfg(test)]
mod plans;
#[cfg(test)]
mod replies;
