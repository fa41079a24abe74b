ghost use Rattle.std.specs.Prelude.{◌≡◌};
ghost use Rattle.ch_program.specs.Commands.{command_named, command_of};

use ch_base::Text;

/// What the program is asked for.
#[derive(Clone, Copy, Debug, PartialEq, Eq)]
pub enum Command {
    /// A transcript is replayed.
    Replay,
    /// A large transcript that a seed makes is replayed, and its output summed up.
    Soak,
    /// Workers on threads, each with one connection of its own.
    Drill,
    /// A server over the system's sockets.
    Serve,
}

impl Command {
    /// The command that these words begin with. Those that begin with none ask for a replay, which refuses them.
    pub fn of(words: &[Text]) -> Command
        ensures { result ≡ command_of words.now }
    {
        match words {
            [] => Command::Replay,
            [word, ..] => Command::named(word.as_str()),
        }
    }

    /// The command of this name.
    fn named(word: &str) -> Command
        ensures { result ≡ command_named word.now }
    {
        match word {
            "soak" => Command::Soak,
            "drill" => Command::Drill,
            "serve" => Command::Serve,
            _ => Command::Replay,
        }
    }
}
