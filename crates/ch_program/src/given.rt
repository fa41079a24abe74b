ghost use Rattle.std.specs.Prelude.{◌≡◌, ◌≤◌, false, length, IfOk, IfSome, Ok, Some};
ghost use Rattle.std.specs.Option.{option_copied};
ghost use Rattle.ch_config.specs.Config.{built_in};
ghost use Rattle.ch_config_text.specs.Config.{config_in};
ghost use Rattle.ch_program.specs.Given.{bytes_of, names_file};
ghost use Rattle.ch_program.specs.declared.limits.TheConstants.{LONGEST_FILE};

use crate::limits::LONGEST_FILE;
use ch_base::{Memory, Text};
use ch_config_text::built_in_text;
use std::io::Read;
use std::rt::Files;
use std::{fs, io};

/// The configuration that the words name.
#[derive(Debug, Drop)]
pub enum Given {
    /// They name no file, so the built-in text serves.
    BuiltIn,
    /// The bytes of the file that they name: at most `LONGEST_FILE`.
    File(Vec<u8>),
    /// The file that they name can't be read, or is longer.
    Unread,
}

impl Given {
    /// The bytes of the configuration, where there are any.
    pub fn bytes(&self) -> Option<&[u8]>
        ensures bytes { option_copied result ≡ bytes_of self.now }
        ensures built_in { self.now ≡ Given.BuiltIn → IfSome (option_copied result) (λ bytes. config_in bytes ≡ Ok built_in) }
    {
        match self {
            Given::BuiltIn => Some(built_in_text().as_bytes()),
            Given::File(bytes) => Some(bytes.as_slice()),
            Given::Unread => None,
        }
    }
}

/// The configuration for these words: the file's that `replay` or `serve` names, and the built-in one where they name none.
/// Other words open no file.
pub fn named_config<R: Files + AllocGlobal>(rt: &R, words: &[Text]) -> Result<Given, Memory>
    ensures built_in { names_file words.now ≡ false → result ≡ Ok Given.BuiltIn }
    ensures short { IfOk result (λ given. IfSome (bytes_of given) (λ bytes. length bytes ≤ LONGEST_FILE)) }
{
    match words {
        [word, path] if word.as_str() == "replay" || word.as_str() == "serve" => {
            read_file(rt, path.as_str())
        }
        _ => Ok(Given::BuiltIn),
    }
}

/// The configuration of a file.
fn read_file<R: Files + AllocGlobal>(rt: &R, path: &str) -> Result<Given, Memory>
    ensures { IfOk result (λ given. IfSome (bytes_of given) (λ bytes. length bytes ≤ LONGEST_FILE)) }
{
    let file = match fs::open(rt, path) {
        Ok(file) => file,
        Err(error) => return unread(&error),
    };
    let mut bytes = Vec::new(rt.alloc());
    match file.take(LONGEST_FILE as u64 + 1).read_to_end(&mut bytes) {
        Ok(_) if bytes.len() <= LONGEST_FILE => Ok(Given::File(bytes)),
        Ok(_) => Ok(Given::Unread),
        Err(error) => unread(&error),
    }
}

/// What can't be read gives nothing, unless there was no memory.
fn unread(error: &io::Error) -> Result<Given, Memory>
    ensures { IfOk result (λ given. given ≡ Given.Unread) }
{
    match error.kind() {
        io::ErrorKind::OutOfMemory => Err(Memory),
        _ => Ok(Given::Unread),
    }
}
