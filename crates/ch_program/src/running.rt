ghost use Rattle.std.specs.Prelude.{◌≡◌, ◌⊎◌, ℕ, List, Option, true};
ghost use Rattle.std.specs.Process.{exit_status};
ghost use Rattle.ch_config.specs.Config.{built_in};
ghost use Rattle.ch_io.specs.Counts.{Rose};
ghost use Rattle.ch_program.specs.Commands.{command_of};
ghost use Rattle.ch_program.specs.Drills.{Drills};
ghost use Rattle.ch_program.specs.Given.{IsGiven};
ghost use Rattle.ch_program.specs.Program.{Does, is_status};
ghost use Rattle.ch_program.specs.Replays.{RanUnder, plain_replay};
ghost use Rattle.ch_program.specs.Soaks.{Soaks};
ghost use Rattle.ch_program.specs.Words.{words_in};
ghost use Rattle.ch_server.specs.Starts.{Starts};

use crate::command::Command;
use crate::given::named_config;
use crate::words::words_of;
use ch_base::{Memory, Text};
use ch_drill::drill;
use ch_io::{Sink, Source};
use ch_replay::replay;
use ch_server::start;
use ch_soak::soak;
use std::alloc::Global;
use std::env::Args;
use std::net::{Net, TcpStream};
use std::process::ExitCode;
use std::rt::Files;
use std::sync::Wait;
use std::thread::Threads;
use std::{io, time};

/// The status for want of memory.
const MEMORY: u8 = 7;

/// Does what the arguments ask for, and answers what the program ends with: the status of the command that they begin with,
/// or 7 for want of memory before it.
pub fn program<R, S: Source, K: Sink>(
    rt: &R,
    args: io::Result<Args>,
    source: &mut S,
    sink: &mut K,
) -> ExitCode
where
    R: Files
        + Wait
        + Threads
        + Net<Stream = TcpStream>
        + time::Clock
        + Clone
        + Sync
        + Send
        + AllocGlobal,
    ensures ends { ((exit_status result ≡ 7) × (source.new ≡ source.old) × (sink.new ≡ sink.old))
        ⊎ Does (command_of (words_in args)) (words_in args) (exit_status result) (S.left source.old) (S.left source.new)
        (K.told sink.old) (K.told sink.new) (Rose (K.faults sink.old) (K.faults sink.new)) }
    ensures plain { words_in args ≡ plain_replay → ((exit_status result ≡ 7) × (source.new ≡ source.old) × (sink.new ≡ sink.old))
        ⊎ RanUnder built_in (exit_status result) (S.left source.old) (S.left source.new) (K.told sink.old) (K.told sink.new) (Rose (K.faults sink.old) (K.faults sink.new)) }
    ensures statuses { is_status (exit_status result) ≡ true }
    ensures unread { ¬ (command_of (words_in args) ≡ Command.Replay) → source.new ≡ source.old }
    ensures read_fault { exit_status result ≡ 5 → Rose (S.faults source.old) (S.faults source.new) }
    ensures write_fault { exit_status result ≡ 6 → Rose (K.faults sink.old) (K.faults sink.new) }
{
    match words_of(rt.alloc(), args) {
        Ok(words) => ExitCode::from(run(rt, words.as_slice(), source, sink)),
        Err(Memory) => ExitCode::from(MEMORY),
    }
}

/// Does what the words ask for, and answers the status.
fn run<R, S: Source, K: Sink>(rt: &R, words: &[Text], source: &mut S, sink: &mut K) -> u8
where
    R: Files
        + Wait
        + Threads
        + Net<Stream = TcpStream>
        + time::Clock
        + Clone
        + Sync
        + Send
        + AllocGlobal,
    ensures ends { ((result ≡ 7) × (source.new ≡ source.old) × (sink.new ≡ sink.old))
        ⊎ Does (command_of words.now) words.now result (S.left source.old) (S.left source.new)
        (K.told sink.old) (K.told sink.new) (Rose (K.faults sink.old) (K.faults sink.new)) }
    ensures plain { words.now ≡ plain_replay
        → RanUnder built_in result (S.left source.old) (S.left source.new) (K.told sink.old) (K.told sink.new) (Rose (K.faults sink.old) (K.faults sink.new)) }
    ensures statuses { is_status result ≡ true }
    ensures unread { ¬ (command_of words.now ≡ Command.Replay) → source.new ≡ source.old }
    ensures read_fault { result ≡ 5 → Rose (S.faults source.old) (S.faults source.new) }
    ensures write_fault { result ≡ 6 → Rose (K.faults sink.old) (K.faults sink.new) }
{
    match Command::of(words) {
        Command::Replay => replay_as_named(rt, words, source, sink),
        Command::Soak => soak_as_asked(rt.alloc(), words, sink),
        Command::Drill => drill_as_asked(rt, words, sink),
        Command::Serve => serve_as_named(rt, words, sink),
    }
}

/// Replays under the configuration that the words name. The status is that of `replay`, or 7 for want of memory before it.
fn replay_as_named<R: Files + AllocGlobal, S: Source, K: Sink>(
    rt: &R,
    words: &[Text],
    source: &mut S,
    sink: &mut K,
) -> u8
    ensures ends { ((result ≡ 7) × (source.new ≡ source.old) × (sink.new ≡ sink.old))
        ⊎ Does Command.Replay words.now result (S.left source.old) (S.left source.new)
        (K.told sink.old) (K.told sink.new) (Rose (K.faults sink.old) (K.faults sink.new)) }
    ensures plain { words.now ≡ plain_replay
        → RanUnder built_in result (S.left source.old) (S.left source.new) (K.told sink.old) (K.told sink.new) (Rose (K.faults sink.old) (K.faults sink.new)) }
    ensures statuses { is_status result ≡ true }
    ensures read_fault { result ≡ 5 → Rose (S.faults source.old) (S.faults source.new) }
    ensures write_fault { result ≡ 6 → Rose (K.faults sink.old) (K.faults sink.new) }
{
    match named_config(rt, words) {
        Ok(given) => replay(rt.alloc(), words, given.bytes(), source, sink),
        Err(Memory) => MEMORY,
    }
}

/// Makes the soak that the words ask for.
fn soak_as_asked<K: Sink>(alloc: Global, words: &[Text], sink: &mut K) -> u8
    ensures soaks { Soaks words.now result (K.told sink.old) (K.told sink.new) (Rose (K.faults sink.old) (K.faults sink.new)) }
    ensures statuses { is_status result ≡ true }
    ensures read { ¬ (result ≡ 5) }
    ensures write_fault { result ≡ 6 → Rose (K.faults sink.old) (K.faults sink.new) }
{
    soak(alloc, words, sink)
}

/// Makes the drill that the words ask for.
fn drill_as_asked<R, K: Sink>(rt: &R, words: &[Text], sink: &mut K) -> u8
where
    R: Wait + Threads + Sync + AllocGlobal,
    ensures drills { Drills words.now result (K.told sink.old) (K.told sink.new) (Rose (K.faults sink.old) (K.faults sink.new)) }
    ensures statuses { is_status result ≡ true }
    ensures read { ¬ (result ≡ 5) }
    ensures write_fault { result ≡ 6 → Rose (K.faults sink.old) (K.faults sink.new) }
{
    drill(rt, rt.alloc(), words, sink).status
}

/// Serves with the configuration that the words name. The status is that of `start`, or 7 for want of memory before it.
fn serve_as_named<R, K: Sink>(rt: &R, words: &[Text], sink: &mut K) -> u8
where
    R: Files
        + Wait
        + Threads
        + Net<Stream = TcpStream>
        + time::Clock
        + Clone
        + Sync
        + Send
        + AllocGlobal,
    ensures ends { ((result ≡ 7) × (sink.new ≡ sink.old))
        ⊎ ((given : Option (List ℕ)) × IsGiven words.now given
        × Starts words.now given result (K.told sink.old) (K.told sink.new) (Rose (K.faults sink.old) (K.faults sink.new))) }
    ensures statuses { is_status result ≡ true }
    ensures faults { (¬ (result ≡ 5)) × (¬ (result ≡ 6)) }
{
    match named_config(rt, words) {
        Ok(given) => start(rt, rt.alloc(), words, given.bytes(), sink),
        Err(Memory) => MEMORY,
    }
}
