//! The commands.

ghost use Rattle.std.specs.Prelude.{◌≡◌, IfOk, OnErr, IsSome, map};
ghost use Rattle.std.specs.Option.{option_map};
ghost use Rattle.std.specs.String.{string_bytes};
ghost use Rattle.sl_run.specs.Command.{check_of, command_of, command_with};
ghost use Rattle.sl_run.specs.Views.{command_in};

use sl_base::{Name, NameRefusal, NoMemory, is_name};
use std::alloc::Global;

/// What the program is asked to do, with the name behind the command's word.
#[derive(Drop)]
pub enum Command<'a> {
    /// One entry point of the input.
    One(&'a [u8]),
    /// The loading of a module.
    Check(Name),
}

/// The command that the words are, if they are one. The only error is that memory ran out for the name
/// of one.
pub fn command_of(alloc: Global, words: &[String]) -> Result<Option<Command<'_>>, NoMemory>
    ensures ok { IfOk result (λ command.
        option_map command_in command ≡ command_of (map string_bytes words.now)) }
    ensures err { OnErr result (IsSome (command_of (map string_bytes words.now))) }
{
    match words {
        [word, name] => command_with(alloc, word.as_bytes(), name.as_bytes()),
        _ => Ok(None),
    }
}

/// The command of a word and the name behind it, if it is one.
fn command_with<'a>(
    alloc: Global,
    word: &[u8],
    name: &'a [u8],
) -> Result<Option<Command<'a>>, NoMemory>
    ensures ok { IfOk result (λ command.
        option_map command_in command ≡ command_with word.now name.now) }
    ensures err { OnErr result (IsSome (command_with word.now name.now)) }
{
    if word == b"one".as_slice() && is_name(name) {
        Ok(Some(Command::One(name)))
    } else if word == b"check".as_slice() {
        check_of(alloc, name)
    } else {
        Ok(None)
    }
}

/// The command to check the module of a name, if it is one.
fn check_of<'a>(alloc: Global, name: &[u8]) -> Result<Option<Command<'a>>, NoMemory>
    ensures ok { IfOk result (λ command. option_map command_in command ≡ check_of name.now) }
    ensures err { OnErr result (IsSome (check_of name.now)) }
{
    match Name::new(alloc, name) {
        Ok(name) => Ok(Some(Command::Check(name))),
        Err(NameRefusal::NotAName) => Ok(None),
        Err(NameRefusal::NoMemory) => Err(NoMemory),
    }
}
