ghost use Rattle.std.specs.Prelude.{◌≡◌, IfOk};
ghost use Rattle.ch_program.specs.Words.{words_in, words_from};

use ch_base::{Memory, Text};
use std::alloc::Global;
use std::env::Args;
use std::io;

/// The words after the program's name, in order. Where one isn't UTF-8 there are none, which no command takes.
pub fn words_of(alloc: Global, args: io::Result<Args>) -> Result<Vec<Text>, Memory>
    ensures { IfOk result (λ words. words.items ≡ words_in args) }
{
    match args {
        Ok(args) => texts(alloc, args),
        Err(error) if error.kind() == io::ErrorKind::InvalidData => Ok(Vec::new(alloc)),
        Err(_) => Err(Memory),
    }
}

/// The arguments behind the first one, as texts.
fn texts(alloc: Global, args: Args) -> Result<Vec<Text>, Memory>
    ensures { IfOk result (λ words. words.items ≡ words_from args) }
{
    let mut words = Vec::new(alloc);
    for arg in args.skip(1) {
        words.push(Text::from_string(arg))?;
    }
    Ok(words)
}
