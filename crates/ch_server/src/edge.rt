//! What a server is made of at the system's side.
ghost use Rattle.std.specs.Prelude.{◌≡◌, ◌+◌, length, is_some, IfOk};
ghost use Rattle.ch_config.specs.Config.{IsConfig};
ghost use Rattle.ch_post.specs.Requests.{front};
ghost use Rattle.ch_server.specs.Targets.{authority};

use ch_base::{Memory, Text};
use ch_config::{Address, Config, Target};
use ch_post::LinkPost;
use ch_wswire::{Pauses, Poller, TcpAccept, TcpDial};
use std::alloc::{AllocError, Global};
use std::net::{IpAddr, Ipv4Addr, Net, SocketAddr, TcpStream};
use std::time::Duration;
use std::{io, time};

/// The most connections that a worker serves.
const CONNECTIONS: usize = 256;

/// A rest's milliseconds at most where no event tells when to go on, as after want of memory.
const SHORT: u64 = 5;

/// A rest's milliseconds at most elsewhere. They bound what time alone brings: a ping, a try of a batch.
const LONG: u64 = 250;

/// Where connections come in, the clock and the rest of each thread, and where webhooks are posted.
#[derive(Drop)]
pub struct Edge<R: Net<Stream = TcpStream> + time::Clock + Clone> {
    pub accept: TcpAccept,
    pub clocks: Vec<Poller<R>>,
    pub post: Option<LinkPost<TcpDial<R>>>,
}

/// Why a server has no edge.
#[derive(Debug, PartialEq, Eq, Drop)]
pub enum Unopened {
    /// The system refused to listen, or to watch sockets.
    Refused,
    /// There was no memory.
    Memory,
}

impl From<io::Error> for Unopened {
    fn from(error: io::Error) -> Unopened {
        match error.kind() {
            io::ErrorKind::OutOfMemory => Unopened::Memory,
            _ => Unopened::Refused,
        }
    }
}

impl From<Memory> for Unopened {
    fn from(_: Memory) -> Unopened {
        Unopened::Memory
    }
}

impl From<AllocError> for Unopened {
    fn from(_: AllocError) -> Unopened {
        Unopened::Memory
    }
}

impl<R: Net<Stream = TcpStream> + time::Clock + Clone> Edge<R> {
    /// Listens at the configuration's address, with a poller for each worker and one for the webhook thread.
    pub fn open(rt: &R, alloc: Global, config: &Config) -> Result<Edge<R>, Unopened>
        requires { IsConfig config.now }
        ensures clocks { IfOk result (λ edge. length edge.clocks.items ≡ config.now.workers + 1) }
        ensures post { IfOk result (λ edge. is_some edge.post ≡ is_some config.now.webhook) }
    {
        let threads = config.workers + 1;
        let clocks = pollers(rt, alloc, threads, pauses())?;
        let post = match &config.webhook {
            Some(target) => Some(post_of(rt, alloc, target)?),
            None => None,
        };
        let pause = Duration::from_millis(LONG);
        let accept = TcpAccept::new(rt, alloc, socket_address(&config.listen), pause)?;
        Ok(Edge {
            accept,
            clocks,
            post,
        })
    }
}

/// How long a server's threads rest.
fn pauses() -> Pauses {
    Pauses {
        short: Duration::from_millis(SHORT),
        long: Duration::from_millis(LONG),
    }
}

fn socket_address(address: &Address) -> SocketAddr {
    let [a, b, c, d] = address.host;
    SocketAddr::new(IpAddr::V4(Ipv4Addr::new(a, b, c, d)), address.port)
}

/// A poller for each of so many threads.
pub fn pollers<R>(rt: &R, alloc: Global, threads: u64, pauses: Pauses) -> io::Result<Vec<Poller<R>>>
where
    R: Net + time::Clock + Clone,
    ensures { IfOk result (λ pollers. length pollers.items ≡ threads) }
{
    let mut pollers = Vec::new(alloc);
    for _ in 0..threads {
        pollers.push(Poller::new(rt.clone()?, rt, alloc, CONNECTIONS, pauses)?)?;
    }
    Ok(pollers)
}

/// Posts to the target of a configuration, each body over a connection of its own.
pub fn post_of<R>(rt: &R, alloc: Global, target: &Target) -> Result<LinkPost<TcpDial<R>>, Memory>
where
    R: Net<Stream = TcpStream> + Clone,
    ensures { IfOk result (λ post. post.front ≡ front (authority target.now) target.now.path) }
{
    let host = String::from_str(alloc, target.host.as_str())?;
    let dial = TcpDial::new(rt.clone()?, alloc, host, target.port);
    LinkPost::new(alloc, dial, &authority(alloc, target)?, &target.path)
}

/// The receiver as a request's `Host` field names it (RFC 9110, section 7.2).
fn authority(alloc: Global, target: &Target) -> Result<Text, Memory>
    ensures { IfOk result (λ text. text ≡ authority target.now) }
{
    let host = target.host.as_str();
    let port = target.port;
    Ok(Text::from_string(format!(in alloc; "{host}:{port}")?))
}
