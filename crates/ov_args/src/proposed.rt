//! What `clap` reads the words as.

ghost use Rattle.std.specs.Prelude.{◌≡◌, IfOk, IsErrOf, None, true, option_map};
ghost use Rattle.clap.specs.Words.{app_of, rows_of, found_of, kind_of, matches_of as rows_for, takes};
ghost use Rattle.ov_args.specs.Words.{options_of};
ghost use Rattle.ov_args.specs.Proposed.{Proposes};
ghost use Rattle.ov_args.specs.Command.{the_command};

use crate::answer::WordsErr;
use clap::error::ErrorKind;
use clap::{Arg, ArgMatches, Command, Error};
use ov_value::Txt;
use std::alloc::{AllocError, Global};

fn command<'a>(alloc: Global) -> Result<Command<'a>, AllocError>
    ensures { IfOk result (λ c. app_of c ≡ the_command) }
{
    let folder = Arg::new(alloc, "folder").required(true);
    let steps = Arg::new(alloc, "steps").long("steps");
    Command::new(alloc, "orpheus")
        .no_binary_name(true)
        .arg(folder)?
        .arg(steps)
}

// An error of `clap` is want of memory or a refusal of the words.
fn why(error: &Error) -> WordsErr
    ensures { kind_of error.now ≡ ErrorKind.OutOfMemory → result ≡ WordsErr.Memory }
{
    match error.kind() {
        ErrorKind::OutOfMemory => WordsErr::Memory,
        _ => WordsErr::Usage,
    }
}

fn matched<'a>(alloc: Global, words: &'a [Txt]) -> Result<ArgMatches<'a>, WordsErr>
    ensures ok { IfOk result (λ m. rows_of (found_of m) ≡ rows_for the_command words.now) }
    ensures usage { IsErrOf result WordsErr.Usage → takes the_command words.now ≡ true → ⊥ }
{
    let Ok(command) = command(alloc) else {
        return Err(WordsErr::Memory);
    };
    match command.try_get_matches_from(words) {
        Ok(matches) => Ok(matches),
        Err(error) => Err(why(&error)),
    }
}

/// The folder and the text for the number of steps, as `clap` reads the words.
pub(crate) fn proposed<'a>(
    alloc: Global,
    words: &'a [Txt],
) -> Result<(&'a str, Option<&'a str>), WordsErr>
    ensures ok { IfOk result (λ p. Proposes words.now p.0.now (option_map (λ t. t.now) p.1)) }
    ensures usage { IsErrOf result WordsErr.Usage → options_of words.now ≡ None }
{
    let matches = matched(alloc, words)?;
    match matches.get_str("folder") {
        Some(folder) => Ok((folder, matches.get_str("steps"))),
        None => Err(WordsErr::Usage),
    }
}
