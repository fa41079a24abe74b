//! Tests of one exchange, over a link in memory and a bench of shards. The requests are of the app `1` with the key `k` and the
//! secret `s`; the digest of a body is that of `openssl md5`, and a signature that of `openssl dgst -sha256 -hmac s`.
#![tactic(auto)]

#[cfg(test)]
mod cuts;
#[cfg(test)]
mod exchanges;
#[cfg(test)]
mod handshakes;
#[cfg(test)]
mod links;
