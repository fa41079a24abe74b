//! Reading a text, a byte at a time, with a stack of the open brackets in place of recursion.
ghost use Rattle.std.specs.Prelude.{◌≡◌, ◌∷◌, true, false, drop, map, ℕ, ◌+◌, ◌<◌, ◌^◌, List, []};
ghost use Rattle.ch_base.specs.JsonTree.{Tree, Items, Members};
ghost use Rattle.ch_base.specs.JsonText.{is_blank};
ghost use Rattle.ch_json.specs.Document.{Shows};
ghost use Rattle.ch_json.specs.Entries.{span_of, plain_of, member_of};
ghost use Rattle.ch_json.specs.Machine.{Frame as SpecFrame, Mode as SpecMode, start, after_step, step, go, in_array, in_object, open_bracket};
ghost use Rattle.ch_json.specs.Machine as spec;
ghost use Rattle.ch_json.specs.States.{in_string_of, in_number_of};
ghost use Rattle.ch_json.specs.ReaderView.{Open, Sees, SeesMode, Follows, Ends, Adds, Added, brackets_open, nodes_of, letters_of, MembersSoFar, ItemsSoFar};

use crate::classes::is_blank_byte;
use crate::entry::{Content, Entry, Member, Plain};
use crate::error::JsonError;
use crate::number_state::{InNumber, NumberStep, after_number_byte, number_may_end};
use crate::span::Span;
use crate::string_state::{InString, StringStep, after_string_byte};
use ch_base::MAX_DEPTH;
use std::alloc::Global;

/// An open bracket: where it stands, and what it has so far; an object's key whose value comes.
#[derive(Debug, Drop)]
pub enum Frame {
    Array(u64, Vec<usize>),
    Object(u64, Vec<Member>, Span),
}

/// What the next byte may be part of. The first number is the place where the part begins, or the
/// bracket round it.
#[derive(Debug, Drop)]
pub enum Mode {
    /// A value, with blanks before it.
    Value,
    /// The first value of an array, or its closing bracket.
    FirstItem(u64),
    /// The first name of an object, or its closing bracket.
    FirstKey(u64),
    /// The name behind a comma; the members so far.
    NextKey(u64, Vec<Member>),
    /// A name, which begins at the second number.
    Key(u64, Vec<Member>, u64, InString),
    /// The colon behind a name.
    Colon(u64, Vec<Member>, Span),
    /// `null`, `false` or `true`, of which so many letters are read.
    Word(Plain, u64, usize),
    Number(u64, InNumber),
    Str(u64, InString),
    /// What follows the value of this entry.
    After(usize),
}

/// The values that are whole, and the brackets that are open, the newest last.
#[derive(Debug, Drop)]
pub struct Reader {
    pub alloc: Global,
    pub entries: Vec<Entry>,
    pub frames: Vec<Frame>,
}

impl Reader {
    pub fn new(alloc: Global) -> Reader
        ensures entries { result.entries.items ≡ [] }
        ensures frames { result.frames.items ≡ [] }
    {
        Reader {
            alloc,
            entries: Vec::new(alloc),
            frames: Vec::new(alloc),
        }
    }

    /// Stores the value from `from` up to `to`, which is whole, and answers its entry.
    fn push_node(&mut self, content: Content, from: u64, to: u64) -> Result<usize, JsonError>
        ensures { (v : Tree) (room : ℕ) (fs : List SpecFrame) → Open self.old room fs 0 →
            Adds self.old content from to v → Added result self.new room fs v }
    {
        let node = self.entries.len();
        self.entries.push(Entry {
            content,
            span: Span { from, to },
        })?;
        Ok(node)
    }

    /// Stores a value that ends with the byte at `at`.
    fn made(&mut self, content: Content, from: u64, to: u64, at: u64) -> Result<Mode, JsonError>
        ensures { (v : Tree) (room : ℕ) (fs : List SpecFrame) → Open self.old room fs 0 →
            Adds self.old content from to v → Follows at result self.new (go (spec.after v) room fs) }
    {
        let node = self.push_node(content, from, to)?;
        Ok(Mode::After(node))
    }

    /// Takes the first byte of a value in.
    fn begin(&self, at: u64, byte: u8) -> Result<Mode, JsonError>
        ensures { (room : ℕ) (fs : List SpecFrame) → Open self.now room fs 0 →
            Follows at result self.now (start room fs at byte) }
    {
        match byte {
            b'"' => Ok(Mode::Str(at, InString::Chars)),
            b'[' => self.open(at, Mode::FirstItem(at)),
            b'{' => self.open(at, Mode::FirstKey(at)),
            b'n' => Ok(Mode::Word(Plain::Null, at, 1)),
            b'f' => Ok(Mode::Word(Plain::False, at, 1)),
            b't' => Ok(Mode::Word(Plain::True, at, 1)),
            b'-' => Ok(Mode::Number(at, InNumber::Minus)),
            _ => match after_number_byte(InNumber::Minus, byte) {
                NumberStep::More(state) => Ok(Mode::Number(at, state)),
                NumberStep::Stop => Err(JsonError::Syntax(at)),
            },
        }
    }

    /// Goes on behind an opening bracket, unless it is one too many.
    fn open(&self, at: u64, mode: Mode) -> Result<Mode, JsonError>
        ensures { (m : SpecMode) (room : ℕ) (fs : List SpecFrame) → Open self.now room fs 0 →
            SeesMode (nodes_of self.now) mode m → brackets_open mode ≡ 1 → Follows at result self.now (open_bracket room m fs) }
    {
        if self.frames.len() >= MAX_DEPTH {
            return Err(JsonError::Deep(at));
        }
        Ok(mode)
    }

    /// Takes a byte behind a value in.
    fn after_value(&mut self, node: usize, at: u64, byte: u8) -> Result<Mode, JsonError>
        requires { at + 1 < 2 ^ 64 }
        ensures { (v : Tree) (room : ℕ) (fs : List SpecFrame) → Open self.old room fs 0 →
            Shows (nodes_of self.old) node v → Follows at result self.new (after_step v room fs at byte) }
    {
        if is_blank_byte(byte) {
            return Ok(Mode::After(node));
        }
        match self.frames.pop() {
            None => Err(JsonError::Syntax(at)),
            Some(Frame::Array(from, items)) => self.after_item(from, items, node, at, byte),
            Some(Frame::Object(from, members, key)) => {
                let member = Member { key, value: node };
                self.after_member(from, members, member, at, byte)
            }
        }
    }

    /// Takes the byte behind a value of an array in, which is no blank.
    fn after_item(
        &mut self,
        from: u64,
        mut items: Vec<usize>,
        node: usize,
        at: u64,
        byte: u8,
    ) -> Result<Mode, JsonError>
        requires { at + 1 < 2 ^ 64 }
        ensures { (v : Tree) (vs : Items) (room : ℕ) (fs : List SpecFrame) → Open self.old room fs 1 →
            ItemsSoFar (nodes_of self.old) items.items vs → Shows (nodes_of self.old) node v → is_blank byte ≡ false →
            Follows at result self.new (after_step v room (in_array from vs ∷ fs) at byte) }
    {
        match byte {
            b',' => {
                items.push(node)?;
                self.frames.push(Frame::Array(from, items))?;
                Ok(Mode::Value)
            }
            b']' => {
                items.push(node)?;
                self.made(Content::List(items), from, at + 1, at)
            }
            _ => Err(JsonError::Syntax(at)),
        }
    }

    /// Takes the byte behind a member in, which is no blank.
    fn after_member(
        &mut self,
        from: u64,
        mut members: Vec<Member>,
        member: Member,
        at: u64,
        byte: u8,
    ) -> Result<Mode, JsonError>
        requires { at + 1 < 2 ^ 64 }
        ensures { (v : Tree) (ms : Members) (room : ℕ) (fs : List SpecFrame) → Open self.old room fs 1 →
            MembersSoFar (nodes_of self.old) (map member_of members.items) ms → Shows (nodes_of self.old) member.value v → is_blank byte ≡ false →
            Follows at result self.new (after_step v room (in_object from ms (span_of member.key) ∷ fs) at byte) }
    {
        match byte {
            b',' => {
                members.push(member)?;
                Ok(Mode::NextKey(from, members))
            }
            b'}' => {
                members.push(member)?;
                self.made(Content::Object(members), from, at + 1, at)
            }
            _ => Err(JsonError::Syntax(at)),
        }
    }

    fn first_item(&mut self, from: u64, at: u64, byte: u8) -> Result<Mode, JsonError>
        requires { at + 1 < 2 ^ 64 }
        ensures { (room : ℕ) (fs : List SpecFrame) → Open self.old room fs 1 →
            Follows at result self.new (step (spec.first_item from) room fs at byte) }
    {
        if is_blank_byte(byte) {
            return Ok(Mode::FirstItem(from));
        }
        let items = Vec::new(self.alloc);
        if byte == b']' {
            return self.made(Content::List(items), from, at + 1, at);
        }
        self.frames.push(Frame::Array(from, items))?;
        self.begin(at, byte)
    }

    fn first_key(&mut self, from: u64, at: u64, byte: u8) -> Result<Mode, JsonError>
        requires { at + 1 < 2 ^ 64 }
        ensures { (room : ℕ) (fs : List SpecFrame) → Open self.old room fs 1 →
            Follows at result self.new (step (spec.first_key from) room fs at byte) }
    {
        if is_blank_byte(byte) {
            return Ok(Mode::FirstKey(from));
        }
        let members = Vec::new(self.alloc);
        match byte {
            b'}' => self.made(Content::Object(members), from, at + 1, at),
            b'"' => Ok(Mode::Key(from, members, at, InString::Chars)),
            _ => Err(JsonError::Syntax(at)),
        }
    }

    fn colon(
        &mut self,
        from: u64,
        members: Vec<Member>,
        key: Span,
        at: u64,
        byte: u8,
    ) -> Result<Mode, JsonError>
        ensures { (ms : Members) (room : ℕ) (fs : List SpecFrame) → Open self.old room fs 1 →
            MembersSoFar (nodes_of self.old) (map member_of members.items) ms →
            Follows at result self.new (step (spec.colon from ms (span_of key)) room fs at byte) }
    {
        if is_blank_byte(byte) {
            return Ok(Mode::Colon(from, members, key));
        }
        if byte != b':' {
            return Err(JsonError::Syntax(at));
        }
        self.frames.push(Frame::Object(from, members, key))?;
        Ok(Mode::Value)
    }

    fn in_word(
        &mut self,
        word: Plain,
        from: u64,
        seen: usize,
        at: u64,
        byte: u8,
    ) -> Result<Mode, JsonError>
        requires { at + 1 < 2 ^ 64 }
        ensures { (c : ℕ) (rest : List ℕ) (room : ℕ) (fs : List SpecFrame) → Open self.old room fs 0 →
            drop seen (letters_of word) ≡ c ∷ rest →
            Follows at result self.new (step (spec.word (plain_of word) from c rest) room fs at byte) }
    {
        let letters = letters(word);
        if seen >= letters.len() {
            return Err(JsonError::Syntax(at));
        }
        if letters[seen] != byte {
            return Err(JsonError::Syntax(at));
        }
        if seen + 1 < letters.len() {
            return Ok(Mode::Word(word, from, seen + 1));
        }
        self.made(Content::Plain(word), from, at + 1, at)
    }

    fn in_number(
        &mut self,
        from: u64,
        state: InNumber,
        at: u64,
        byte: u8,
    ) -> Result<Mode, JsonError>
        requires { at + 1 < 2 ^ 64 }
        ensures { (room : ℕ) (fs : List SpecFrame) → Open self.old room fs 0 →
            Follows at result self.new (step (spec.number from (in_number_of state)) room fs at byte) }
    {
        match after_number_byte(state, byte) {
            NumberStep::More(next) => Ok(Mode::Number(from, next)),
            NumberStep::Stop if number_may_end(state) => {
                let node = self.push_node(Content::Plain(Plain::Number), from, at)?;
                self.after_value(node, at, byte)
            }
            NumberStep::Stop => Err(JsonError::Syntax(at)),
        }
    }

    fn in_string(
        &mut self,
        from: u64,
        state: InString,
        at: u64,
        byte: u8,
    ) -> Result<Mode, JsonError>
        requires { at + 1 < 2 ^ 64 }
        ensures { (room : ℕ) (fs : List SpecFrame) → Open self.old room fs 0 →
            Follows at result self.new (step (spec.string from (in_string_of state)) room fs at byte) }
    {
        match after_string_byte(state, byte) {
            StringStep::Ends => self.made(Content::Plain(Plain::Str), from, at + 1, at),
            StringStep::On(next) => Ok(Mode::Str(from, next)),
            StringStep::Fault => Err(JsonError::Syntax(at)),
        }
    }

    fn next_key(
        &self,
        from: u64,
        members: Vec<Member>,
        at: u64,
        byte: u8,
    ) -> Result<Mode, JsonError>
        ensures { (ms : Members) (room : ℕ) (fs : List SpecFrame) → Open self.now room fs 1 →
            MembersSoFar (nodes_of self.now) (map member_of members.items) ms →
            Follows at result self.now (step (spec.next_key from ms) room fs at byte) }
    {
        if is_blank_byte(byte) {
            return Ok(Mode::NextKey(from, members));
        }
        if byte != b'"' {
            return Err(JsonError::Syntax(at));
        }
        Ok(Mode::Key(from, members, at, InString::Chars))
    }

    fn in_key(
        &self,
        from: u64,
        members: Vec<Member>,
        at_key: u64,
        state: InString,
        at: u64,
        byte: u8,
    ) -> Result<Mode, JsonError>
        requires { at + 1 < 2 ^ 64 }
        ensures { (ms : Members) (room : ℕ) (fs : List SpecFrame) → Open self.now room fs 1 →
            MembersSoFar (nodes_of self.now) (map member_of members.items) ms →
            Follows at result self.now (step (spec.key from ms at_key (in_string_of state)) room fs at byte) }
    {
        match after_string_byte(state, byte) {
            StringStep::Ends => {
                let key = Span {
                    from: at_key,
                    to: at + 1,
                };
                Ok(Mode::Colon(from, members, key))
            }
            StringStep::On(next) => Ok(Mode::Key(from, members, at_key, next)),
            StringStep::Fault => Err(JsonError::Syntax(at)),
        }
    }

    /// Takes the byte at `at` in.
    pub fn step(&mut self, mode: Mode, at: u64, byte: u8) -> Result<Mode, JsonError>
        requires { at + 1 < 2 ^ 64 }
        ensures { (m : SpecMode) (room : ℕ) (fs : List SpecFrame) → Sees self.old mode m room fs →
            Follows at result self.new (step m room fs at byte) }
    {
        match mode {
            Mode::Value if is_blank_byte(byte) => Ok(Mode::Value),
            Mode::Value => self.begin(at, byte),
            Mode::FirstItem(from) => self.first_item(from, at, byte),
            Mode::FirstKey(from) => self.first_key(from, at, byte),
            Mode::NextKey(from, members) => self.next_key(from, members, at, byte),
            Mode::Key(from, members, at_key, state) => self.in_key(
                from, members, at_key, state, at, byte,
            ),
            Mode::Colon(from, members, key) => self.colon(from, members, key, at, byte),
            Mode::Word(word, from, rest) => self.in_word(word, from, rest, at, byte),
            Mode::Number(from, state) => self.in_number(from, state, at, byte),
            Mode::Str(from, state) => self.in_string(from, state, at, byte),
            Mode::After(node) => self.after_value(node, at, byte),
        }
    }

    /// The text ends at `at`. Answers the entry of its value.
    pub fn finish(&mut self, mode: Mode, at: u64) -> Result<usize, JsonError>
        ensures { (m : SpecMode) (room : ℕ) (fs : List SpecFrame) → Sees self.old mode m room fs →
            Ends at result self.new (go m room fs) }
    {
        if !self.frames.is_empty() {
            return Err(JsonError::Syntax(at));
        }
        match mode {
            Mode::After(node) => Ok(node),
            Mode::Number(from, state) => self.last_number(from, state, at),
            Mode::Value
            | Mode::FirstItem(_)
            | Mode::FirstKey(_)
            | Mode::NextKey(_, _)
            | Mode::Key(_, _, _, _)
            | Mode::Colon(_, _, _)
            | Mode::Word(_, _, _)
            | Mode::Str(_, _) => Err(JsonError::Syntax(at)),
        }
    }

    /// The text ends with a number.
    fn last_number(&mut self, from: u64, state: InNumber, at: u64) -> Result<usize, JsonError>
        ensures { (room : ℕ) → Open self.old room [] 0 → Ends at result self.new (go (spec.number from (in_number_of state)) room []) }
    {
        if !number_may_end(state) {
            return Err(JsonError::Syntax(at));
        }
        self.push_node(Content::Plain(Plain::Number), from, at)
    }
}

/// The letters of a word.
fn letters(word: Plain) -> &'static [u8]
    ensures { result.now ≡ letters_of word }
{
    match word {
        Plain::Null => b"null",
        Plain::False => b"false",
        Plain::True => b"true",
        Plain::Number | Plain::Str => b"",
    }
}
