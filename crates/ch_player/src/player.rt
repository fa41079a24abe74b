ghost use Rattle.std.specs.Prelude.{◌≡◌, ◌≤◌, ◌+◌, ℕ, List, true, IfErr, IfOk, OnErr, OnOk, MatchResult, [], length};
ghost use Rattle.std.specs.Prelude.{Some};
ghost use Rattle.ch_base.specs.JsonText.{IsJsonString};
ghost use Rattle.ch_config.specs.Config.{IsConfig};
ghost use Rattle.ch_history.specs.ChannelName.{is_good_name};
ghost use Rattle.ch_history.specs.Limits.{is_event_name};
ghost use Rattle.ch_protocol.specs.Targets.{target_refusal};
ghost use Rattle.ch_player.specs.Benches.{HasShards};
ghost use Rattle.ch_transcript.specs.declared.limits.TheConstants.{MOST_OPENED};
ghost use Rattle.ch_transcript.specs.Commands.{IsCommand, IsLine};
ghost use Rattle.ch_base.specs.declared.limits.TheConstants.{LATEST_MOMENT};
ghost use Rattle.ch_transcript.specs.Gathering.{gathers};
ghost use Rattle.ch_transcript.specs.Obeying.{opens, tails, publishes, may_except};
ghost use Rattle.ch_transcript.specs.Outcomes.{Plays};
ghost use Rattle.ch_transcript.specs.Progress.{Progress, beginning};
ghost use Rattle.ch_transcript.specs.Rounds.{rounds};
ghost use Rattle.ch_transcript.specs.Turns.{ticks, ends_turn};

use crate::greeting::greet;
use crate::hooks::gather_hooks;
use crate::json_string::is_json_string;
use crate::line_fault::LineFault;
use crate::publishing::{ask_publish, publish_call};
use crate::rounds::rounds;
use crate::seat::Seat;
use crate::seats::{add_session, has_socket, put_session, take_session};
use ch_backend::{api_request, exchange};
use ch_base::{Memory, Text};
use ch_batch::Batcher;
use ch_config::Config;
use ch_desk::Bench;
use ch_script::{join_text, put_sent, put_tail, read_line, sign_in_text};
use ch_socket::{hear, lose, tick};
use ch_transcript::{Command, Line, MOST_OPENED, START_SECOND};
use std::alloc::Global;

/// A transcript that is being played, line by line, over sessions and a bench of shards.
#[derive(Drop)]
pub struct Player {
    alloc: Global,
    config: Config,
    at: u64,
    seats: Vec<Option<Seat>>,
    bench: Bench,
    // Its batches count as sent as soon as they are made, so none waits.
    batcher: Batcher,
    ghost good: { IsConfig config },
    ghost shards: { HasShards config bench },
    ghost few: { length seats.items ≤ MOST_OPENED },
    ghost soon: { at ≤ LATEST_MOMENT },
}

impl Player {
    ghost use Rattle.ch_player.specs.Playing.{IsAt, IsSoundPlayer, IsUntouched, PlaysAs, IsRefused, PlaysLine, RunsOn, config_of};
    ghost use Rattle.ch_transcript.specs.declared.commands.Line.{Line};
    ghost use Rattle.ch_player.specs.Steps.{TurnOf, HearsOf, Obeys, ObeysWhole, Publishes, MayPublish, ExchangesOf};

    /// A player that is at the beginning of a transcript.
    pub fn new(alloc: Global, config: Config) -> Result<Player, Memory>
        requires { IsConfig config }
        ensures stands { IfOk result (λ player. IsAt player beginning) }
        ensures sound { IfOk result IsSoundPlayer }
        ensures over { IfOk result (λ player. config_of player ≡ config) }
    {
        let bench = Bench::new(alloc, config.chan_shards, config.user_shards)?;
        let batcher = Batcher::new(alloc, &config.key, &config.secret, START_SECOND)?;
        Ok(Player {
            alloc,
            config,
            at: 0,
            seats: Vec::new(alloc),
            bench,
            batcher,
        })
    }

    /// Plays one line, which is given without its line end, and adds its output. The output of a line that isn't played is
    /// left out whole. What is no transcript line changes nothing; a player that found no memory isn't played on.
    pub fn play(&mut self, line: &[u8], out: &mut Vec<u8>) -> Result<(), LineFault>
        requires { IsSoundPlayer self.old }
        ensures plays { (p : Progress) → IsAt self.old p → MatchResult result
            (λ _. PlaysAs self.new out.old.items out.new.items (Plays (config_of self.old) p line.now))
            (λ fault. IsRefused fault (Plays (config_of self.old) p line.now)) }
        ensures sound { OnOk result (IsSoundPlayer self.new) }
        ensures refused { IfErr result (λ fault. IsUntouched fault self.old self.new out.old.items out.new.items) }
        ensures over { config_of self.new ≡ config_of self.old }
        ensures output { OnErr result (out.new.items ≡ out.old.items) }
    {
        let line = read_line(self.alloc, line)?;
        let mut text = Vec::new(self.alloc);
        match self.play_line(&line, &mut text) {
            Ok(()) => {}
            Err(fault) => return Err(fault),
        }
        match out.extend_from_slice(text.as_slice()) {
            Ok(()) => Ok(()),
            Err(_) => Err(LineFault::Memory),
        }
    }

    fn play_line(&mut self, line: &Line, out: &mut Vec<u8>) -> Result<(), LineFault>
        requires sound { IsSoundPlayer self.old }
        requires line { IsLine line.now }
        ensures plays { (p : Progress) → IsAt self.old p → MatchResult result
            (λ _. PlaysAs self.new out.old.items out.new.items (PlaysLine (config_of self.old) p line.now))
            (λ fault. IsRefused fault (PlaysLine (config_of self.old) p line.now)) }
        ensures sound { OnOk result (IsSoundPlayer self.new) }
        ensures refused { IfErr result (λ fault. IsUntouched fault self.old self.new out.old.items out.new.items) }
        ensures over { config_of self.new ≡ config_of self.old }
    {
        match line {
            Line::Skipped => Ok(()),
            Line::Timed { at, command } => self.obey_at(*at, command, out),
            Line::Bad => Err(LineFault::NotALine),
        }
    }

    /// Obeys a command at a moment, which isn't before that of the last line, and then runs the rounds.
    fn obey_at(&mut self, at: u64, command: &Command, out: &mut Vec<u8>) -> Result<(), LineFault>
        requires sound { IsSoundPlayer self.old }
        requires moment { at ≤ LATEST_MOMENT }
        requires command { IsCommand command.now }
        ensures obeys { (p : Progress) → IsAt self.old p → MatchResult result
            (λ _. PlaysAs self.new out.old.items out.new.items (PlaysLine (config_of self.old) p (Line.Timed at command.now)))
            (λ fault. IsRefused fault (PlaysLine (config_of self.old) p (Line.Timed at command.now))) }
        ensures sound { OnOk result (IsSoundPlayer self.new) }
        ensures refused { IfErr result (λ fault. IsUntouched fault self.old self.new out.old.items out.new.items) }
        ensures over { config_of self.new ≡ config_of self.old }
    {
        if at < self.at {
            return Err(LineFault::NotALine);
        }
        let before = self.at;
        self.at = at;
        match self.obey_whole(at, command, out) {
            Ok(()) => Ok(()),
            Err(fault) => {
                self.at = before;
                Err(fault)
            }
        }
    }

    fn obey_whole(&mut self, at: u64, command: &Command, out: &mut Vec<u8>) -> Result<(), LineFault>
        requires sound { IsSoundPlayer self.old }
        requires moment { at ≤ LATEST_MOMENT }
        requires command { IsCommand command.now }
        ensures obeys { (p : Progress) → IsAt self.old p → MatchResult result
            (λ _. PlaysAs self.new out.old.items out.new.items (ObeysWhole (config_of self.old) p at command.now))
            (λ fault. IsRefused fault (ObeysWhole (config_of self.old) p at command.now)) }
        ensures sound { OnOk result (IsSoundPlayer self.new) }
        ensures refused { IfErr result (λ fault. IsUntouched fault self.old self.new out.old.items out.new.items) }
        ensures over { config_of self.new ≡ config_of self.old }
    {
        match self.obey(at, command, out) {
            Ok(()) => {}
            Err(fault) => return Err(fault),
        }
        match self.finish(out) {
            Ok(()) => Ok(()),
            Err(_) => Err(LineFault::Memory),
        }
    }

    /// Runs the rounds at the end of a line.
    fn finish(&mut self, out: &mut Vec<u8>) -> Result<(), Memory>
        requires { IsSoundPlayer self.old }
        ensures runs { (p : Progress) → IsAt self.old p → OnOk result (RunsOn self.new out.old.items out.new.items p
            (rounds (length p.sockets + 1) (config_of self.old) p.at p.sockets p.shards)) }
        ensures sound { OnOk result (IsSoundPlayer self.new) }
        ensures over { config_of self.new ≡ config_of self.old }
    {
        rounds(
            self.alloc,
            &self.config,
            &mut self.bench,
            &mut self.seats,
            self.at,
            out,
        )
    }

    fn obey(&mut self, at: u64, command: &Command, out: &mut Vec<u8>) -> Result<(), LineFault>
        requires sound { IsSoundPlayer self.old }
        requires moment { at ≤ LATEST_MOMENT }
        requires command { IsCommand command.now }
        ensures obeys { (p : Progress) → IsAt self.old p → MatchResult result
            (λ _. PlaysAs self.new out.old.items out.new.items (Obeys (config_of self.old) p at command.now))
            (λ fault. IsRefused fault (Obeys (config_of self.old) p at command.now)) }
        ensures sound { OnOk result (IsSoundPlayer self.new) }
        ensures refused { IfErr result (λ fault. IsUntouched fault self.old self.new out.old.items out.new.items) }
        ensures over { config_of self.new ≡ config_of self.old }
    {
        match command {
            Command::Open { target } => self.open(at, target, out),
            Command::Say { number, text } => self.hear(at, *number, text, out),
            Command::Join {
                number,
                channel,
                channel_data,
            } => {
                let text = join_text(
                    self.alloc,
                    &self.config,
                    *number,
                    channel,
                    channel_data.as_ref(),
                )?;
                self.hear(at, *number, &text, out)
            }
            Command::SignIn { number, user_data } => {
                let text = sign_in_text(self.alloc, &self.config, *number, user_data)?;
                self.hear(at, *number, &text, out)
            }
            Command::Lose { number } => self.lose(at, *number),
            Command::Tick { number } => self.tick(at, *number, out),
            Command::Publish {
                channel,
                event,
                body,
                except,
            } => self.publish(at, channel, event, body, *except, out),
            Command::Tail { shard } => self.tail(*shard, out),
            Command::Api {
                method,
                path,
                query,
                body,
            } => {
                let bytes = api_request(self.alloc, &self.config, at, *method, path, query, body)?;
                self.exchange(at, bytes.as_slice(), out)
            }
            Command::Hooks => self.hooks(at, out),
            Command::Http { bytes } => self.exchange(at, bytes.as_slice(), out),
        }
    }

    fn open(&mut self, at: u64, target: &Text, out: &mut Vec<u8>) -> Result<(), LineFault>
        requires sound { IsSoundPlayer self.old }
        requires moment { at ≤ LATEST_MOMENT }
        ensures opens { (p : Progress) → IsAt self.old p → MatchResult result
            (λ _. PlaysAs self.new out.old.items out.new.items (λ x. x ≡ opens p at (target_refusal (config_of self.old).key target.now)))
            (λ fault. IsRefused fault (λ x. x ≡ opens p at (target_refusal (config_of self.old).key target.now))) }
        ensures sound { OnOk result (IsSoundPlayer self.new) }
        ensures refused { IfErr result (λ fault. IsUntouched fault self.old self.new out.old.items out.new.items) }
        ensures over { config_of self.new ≡ config_of self.old }
    {
        if self.seats.len() >= MOST_OPENED {
            return Err(LineFault::NotALine);
        }
        let number = self.seats.len() as u64 + 1;
        let session = greet(self.alloc, &self.config, number, target, at, out)?;
        add_session(&mut self.seats, session)?;
        Ok(())
    }

    fn hear(
        &mut self,
        at: u64,
        number: u64,
        text: &Text,
        out: &mut Vec<u8>,
    ) -> Result<(), LineFault>
        requires sound { IsSoundPlayer self.old }
        requires moment { at ≤ LATEST_MOMENT }
        ensures hears { (p : Progress) → IsAt self.old p → MatchResult result
            (λ _. PlaysAs self.new out.old.items out.new.items (HearsOf (config_of self.old) p at number text.now))
            (λ fault. IsRefused fault (HearsOf (config_of self.old) p at number text.now)) }
        ensures sound { OnOk result (IsSoundPlayer self.new) }
        ensures refused { IfErr result (λ fault. IsUntouched fault self.old self.new out.old.items out.new.items) }
        ensures over { config_of self.new ≡ config_of self.old }
    {
        if !has_socket(self.seats.as_slice(), number) {
            return Err(LineFault::NotALine);
        }
        let Some(session) = take_session(&mut self.seats, number) else {
            return Ok(());
        };
        let left = hear(
            self.alloc,
            &(),
            &self.config,
            &mut self.bench,
            session,
            number,
            text,
            at,
            out,
        )?;
        self.bench.alone();
        put_session(&mut self.seats, number, left);
        Ok(())
    }

    fn tick(&mut self, at: u64, number: u64, out: &mut Vec<u8>) -> Result<(), LineFault>
        requires sound { IsSoundPlayer self.old }
        requires moment { at ≤ LATEST_MOMENT }
        ensures ticks { (p : Progress) → IsAt self.old p → MatchResult result
            (λ _. PlaysAs self.new out.old.items out.new.items (TurnOf p number (ticks number at)))
            (λ fault. IsRefused fault (TurnOf p number (ticks number at))) }
        ensures sound { OnOk result (IsSoundPlayer self.new) }
        ensures refused { IfErr result (λ fault. IsUntouched fault self.old self.new out.old.items out.new.items) }
        ensures over { config_of self.new ≡ config_of self.old }
    {
        if !has_socket(self.seats.as_slice(), number) {
            return Err(LineFault::NotALine);
        }
        let Some(session) = take_session(&mut self.seats, number) else {
            return Ok(());
        };
        let left = tick(
            self.alloc,
            &(),
            &self.config,
            &mut self.bench,
            session,
            number,
            at,
            out,
        )?;
        self.bench.alone();
        put_session(&mut self.seats, number, left);
        Ok(())
    }

    fn lose(&mut self, at: u64, number: u64) -> Result<(), LineFault>
        requires sound { IsSoundPlayer self.old }
        requires moment { at ≤ LATEST_MOMENT }
        ensures loses { (p : Progress) (wrote : List ℕ) → IsAt self.old p → MatchResult result
            (λ _. PlaysAs self.new wrote wrote (TurnOf p number (ends_turn [] number at)))
            (λ fault. IsRefused fault (TurnOf p number (ends_turn [] number at))) }
        ensures sound { OnOk result (IsSoundPlayer self.new) }
        ensures refused { (wrote : List ℕ) → IfErr result (λ fault. IsUntouched fault self.old self.new wrote wrote) }
        ensures over { config_of self.new ≡ config_of self.old }
    {
        if !has_socket(self.seats.as_slice(), number) {
            return Err(LineFault::NotALine);
        }
        let Some(session) = take_session(&mut self.seats, number) else {
            return Ok(());
        };
        lose(&(), &mut self.bench, session, number, at)?;
        self.bench.alone();
        put_session(&mut self.seats, number, None);
        Ok(())
    }

    fn publish(
        &mut self,
        at: u64,
        channel: &Text,
        event: &Text,
        body: &Text,
        except: Option<u64>,
        out: &mut Vec<u8>,
    ) -> Result<(), LineFault>
        requires sound { IsSoundPlayer self.old }
        requires moment { at ≤ LATEST_MOMENT }
        requires name { is_good_name channel.now ≡ true }
        requires event { is_event_name event.now ≡ true }
        ensures publishes { (p : Progress) → IsAt self.old p → MatchResult result
            (λ _. PlaysAs self.new out.old.items out.new.items (Publishes (config_of self.old) p at channel.now event.now body.now except))
            (λ fault. IsRefused fault (Publishes (config_of self.old) p at channel.now event.now body.now except)) }
        ensures sound { OnOk result (IsSoundPlayer self.new) }
        ensures refused { IfErr result (λ fault. IsUntouched fault self.old self.new out.old.items out.new.items) }
        ensures over { config_of self.new ≡ config_of self.old }
    {
        if !self.may_publish(body, except)? {
            return Err(LineFault::NotALine);
        }
        self.make_publish(at, channel, event, body, except, out)?;
        Ok(())
    }

    /// Whether the body is a JSON string, and the excepted socket is one of the sockets.
    fn may_publish(&self, body: &Text, except: Option<u64>) -> Result<bool, Memory>
        ensures may { (p : Progress) → IsAt self.now p → IfOk result (MayPublish p body.now except) }
        ensures string { IfOk result (λ may. may ≡ true → IsJsonString body.now) }
    {
        let is_string = is_json_string(self.alloc, body.as_str())?;
        Ok(is_string && self.may_except(except))
    }

    fn make_publish(
        &mut self,
        at: u64,
        channel: &Text,
        event: &Text,
        body: &Text,
        except: Option<u64>,
        out: &mut Vec<u8>,
    ) -> Result<(), Memory>
        requires sound { IsSoundPlayer self.old }
        requires moment { at ≤ LATEST_MOMENT }
        requires name { is_good_name channel.now ≡ true }
        requires event { is_event_name event.now ≡ true }
        requires body { IsJsonString body.now }
        ensures publishes { (p : Progress) → IsAt self.old p → OnOk result (PlaysAs self.new out.old.items out.new.items
            (λ x. x ≡ Some (publishes (config_of self.old) p at channel.now event.now body.now except))) }
        ensures sound { OnOk result (IsSoundPlayer self.new) }
        ensures over { config_of self.new ≡ config_of self.old }
    {
        let call = publish_call(self.alloc, channel, event, body, except, at)?;
        let answer = ask_publish(&self.config, &mut self.bench, channel, &call)?;
        put_sent(self.alloc, out, &answer)
    }

    /// Whether the excepted socket, where there is one, is one of the sockets.
    fn may_except(&self, except: Option<u64>) -> bool
        ensures { (p : Progress) → IsAt self.now p → result ≡ may_except p except }
    {
        match except {
            Some(number) => has_socket(self.seats.as_slice(), number),
            None => true,
        }
    }

    /// Does what the bytes of a request ask for.
    fn exchange(&mut self, at: u64, bytes: &[u8], out: &mut Vec<u8>) -> Result<(), LineFault>
        requires sound { IsSoundPlayer self.old }
        requires moment { at ≤ LATEST_MOMENT }
        ensures exchanges { (p : Progress) → IsAt self.old p → MatchResult result
            (λ _. PlaysAs self.new out.old.items out.new.items (ExchangesOf (config_of self.old) p at bytes.now))
            (λ fault. IsRefused fault (ExchangesOf (config_of self.old) p at bytes.now)) }
        ensures sound { OnOk result (IsSoundPlayer self.new) }
        ensures refused { IfErr result (λ fault. IsUntouched fault self.old self.new out.old.items out.new.items) }
        ensures over { config_of self.new ≡ config_of self.old }
    {
        let done = exchange(
            self.alloc,
            &(),
            &self.config,
            &mut self.bench,
            bytes,
            at,
            out,
        );
        self.bench.alone();
        match done {
            Ok(()) => Ok(()),
            Err(Memory) => Err(LineFault::Memory),
        }
    }

    /// Takes the webhook events that wait, and prints the batches that they are cut into.
    fn hooks(&mut self, at: u64, out: &mut Vec<u8>) -> Result<(), LineFault>
        requires sound { IsSoundPlayer self.old }
        requires moment { at ≤ LATEST_MOMENT }
        ensures gathers { (p : Progress) → IsAt self.old p → MatchResult result
            (λ _. PlaysAs self.new out.old.items out.new.items (λ x. x ≡ Some (gathers (config_of self.old) p at)))
            (λ fault. IsRefused fault (λ x. x ≡ Some (gathers (config_of self.old) p at))) }
        ensures sound { OnOk result (IsSoundPlayer self.new) }
        ensures refused { IfErr result (λ fault. IsUntouched fault self.old self.new out.old.items out.new.items) }
        ensures over { config_of self.new ≡ config_of self.old }
    {
        let done = gather_hooks(self.alloc, &mut self.bench, &mut self.batcher, at, out);
        self.bench.alone();
        match done {
            Ok(()) => Ok(()),
            Err(Memory) => Err(LineFault::Memory),
        }
    }

    fn tail(&mut self, shard: u64, out: &mut Vec<u8>) -> Result<(), LineFault>
        requires sound { IsSoundPlayer self.old }
        ensures tails { (p : Progress) → IsAt self.old p → MatchResult result
            (λ _. PlaysAs self.new out.old.items out.new.items (λ x. x ≡ tails (config_of self.old) p shard))
            (λ fault. IsRefused fault (λ x. x ≡ tails (config_of self.old) p shard)) }
        ensures sound { OnOk result (IsSoundPlayer self.new) }
        ensures refused { IfErr result (λ fault. IsUntouched fault self.old self.new out.old.items out.new.items) }
        ensures over { config_of self.new ≡ config_of self.old }
    {
        if shard >= self.config.chan_shards {
            return Err(LineFault::NotALine);
        }
        put_tail(self.alloc, out, self.bench.shard(shard))?;
        Ok(())
    }
}
