//! The configuration that a server is started with.
ghost use Rattle.std.specs.Prelude.{◌≡◌, ◌↔◌, true, false, IfOk, MatchResult};
ghost use Rattle.std.specs.Option.{option_copied};
ghost use Rattle.ch_config.specs.Config.{IsConfig};
ghost use Rattle.ch_given.specs.ConfigLines.{config_or_line, Declines};
ghost use Rattle.ch_io.specs.Counts.{Rose};
ghost use Rattle.ch_io.specs.Writes.{WritesLast};
ghost use Rattle.ch_serve.specs.Words.{IsReadOr, IfDeclined, is_serve, usage_line};

use ch_base::Text;
use ch_config::Config;
use ch_config_text::read_config;
use ch_given::decline;
use ch_io::{Sink, write_last};
use std::alloc::Global;

/// The configuration of these bytes, for the words of a command line that ask for a server. No bytes are given where they
/// can't be read. Else the status of the program:
///
/// | Status | Comes |
/// |---|---|
/// | 2 | the words aren't `serve` with one more; the usage line is written |
/// | 3 | there is no configuration; a line says why |
/// | 7 | want of memory |
pub fn serve_config<K: Sink>(
    alloc: Global,
    words: &[Text],
    config: Option<&[u8]>,
    sink: &mut K,
) -> Result<Config, u8>
    ensures words { (result ≡ Err 2) ↔ (is_serve words.now ≡ false) }
    ensures usage { result ≡ Err 2 → WritesLast usage_line (K.told sink.old) (K.told sink.new) (Rose (K.faults sink.old) (K.faults sink.new)) }
    ensures read { is_serve words.now ≡ true → MatchResult (config_or_line (option_copied config.entry))
        (λ c. IsReadOr c result × (sink.new ≡ sink.old))
        (λ line. IfDeclined result (λ status. Declines line status (K.told sink.old) (K.told sink.new) (Rose (K.faults sink.old) (K.faults sink.new)))) }
    ensures good { IfOk result IsConfig }
{
    if !is_serve(words) {
        write_last(sink, "usage: channelsd serve <config>\n");
        return Err(2);
    }
    let Some(bytes) = config else {
        write_last(sink, "config unread\n");
        return Err(3);
    };
    match read_config(alloc, bytes) {
        Ok(config) => Ok(config),
        Err(fault) => Err(decline(alloc, fault, sink)),
    }
}

/// Whether the words are `serve` with one more.
fn is_serve(words: &[Text]) -> bool
    ensures { result ≡ is_serve words.now }
{
    match words {
        [word, _] => word.as_str() == "serve",
        _ => false,
    }
}
