//! The command.
ghost use Rattle.std.specs.Prelude.{◌≡◌, ◌+◌, ◌⊎◌, length};
ghost use Rattle.std.specs.Option.{option_copied};
ghost use Rattle.ch_config.specs.Config.{IsConfig};
ghost use Rattle.ch_io.specs.Counts.{Rose};
ghost use Rattle.ch_server.specs.Starts.{Listens, Starts};

use crate::edge::{Edge, Unopened};
use crate::lines::listening_line;
use ch_base::Text;
use ch_config::Config;
use ch_io::{Sink, write_last};
use ch_serve::{serve, serve_config};
use std::alloc::Global;
use std::net::{Net, TcpStream};
use std::sync::Wait;
use std::thread::Threads;
use std::time;

/// How many turns each thread takes: more than any machine will.
const TURNS: u64 = 1 << 48;

/// The status for want of memory.
const MEMORY: u8 = 7;

/// The status where the system refused to listen.
const LISTEN_FAILED: u8 = 9;

/// Serves with the configuration of these bytes, for the words of a command line, and answers the status of the program. No
/// bytes are given where they can't be read. One line tells where it listens, as `listening 127.0.0.1:6001`.
///
/// | Status | Comes |
/// |---|---|
/// | 0 | each thread took 2^48 turns |
/// | 2 | the words aren't `serve` with one more; the usage line is written |
/// | 3 | there is no configuration; a line says why |
/// | 7 | want of memory |
/// | 9 | the system refused to listen or to watch sockets; the line `listen failed` is written |
pub fn start<R, K>(rt: &R, alloc: Global, words: &[Text], config: Option<&[u8]>, sink: &mut K) -> u8
where
    R: Wait + Threads + Net<Stream = TcpStream> + time::Clock + Clone + Sync + Send,
    K: Sink,
    ensures starts { Starts words.now (option_copied config.entry) result
        (K.told sink.old) (K.told sink.new) (Rose (K.faults sink.old) (K.faults sink.new)) }
{
    match serve_config(alloc, words, config, sink) {
        Ok(config) => start_with(rt, alloc, &config, sink),
        Err(status) => status,
    }
}

/// Serves with this configuration.
fn start_with<R, K>(rt: &R, alloc: Global, config: &Config, sink: &mut K) -> u8
where
    R: Wait + Threads + Net<Stream = TcpStream> + time::Clock + Clone + Sync + Send,
    K: Sink,
    requires { IsConfig config.now }
    ensures { Listens config.now result (K.told sink.old) (K.told sink.new) (Rose (K.faults sink.old) (K.faults sink.new)) }
{
    let Ok(line) = listening_line(alloc, &config.listen) else {
        return MEMORY;
    };
    match Edge::open(rt, alloc, config) {
        Ok(edge) => {
            write_last(sink, line.as_str());
            serve_at(rt, alloc, config, edge)
        }
        Err(Unopened::Refused) => {
            write_last(sink, "listen failed\n");
            LISTEN_FAILED
        }
        Err(Unopened::Memory) => MEMORY,
    }
}

/// Serves at this edge, until each thread has taken its turns.
fn serve_at<R>(rt: &R, alloc: Global, config: &Config, edge: Edge<R>) -> u8
where
    R: Wait + Threads + Net<Stream = TcpStream> + time::Clock + Clone + Sync + Send,
    requires config { IsConfig config.now }
    requires clocks { length edge.clocks.items ≡ config.now.workers + 1 }
    ensures { (result ≡ 0) ⊎ (result ≡ 7) }
{
    let Edge {
        accept,
        clocks,
        post,
    } = edge;
    serve(rt, alloc, config, accept, clocks, post, TURNS).status
}
