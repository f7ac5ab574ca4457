//! The words as `clap` reads them.
ghost use Rattle.std.specs.Prelude.{◌≡◌, IfOk, map, option_map, string_bytes};
ghost use Rattle.lf_words.specs.Words.{app, given, seen};
ghost use Rattle.clap.specs.Words.{app_of};

use clap::error::ErrorKind;
use clap::{Arg, ArgAction, Command, Error};
use std::alloc::{AllocError, Global};

/// The mode, the number, and the values of the two options, as they are written.
#[derive(Clone, Copy, Drop)]
pub struct Values<'a> {
    pub mode: Option<&'a str>,
    pub count: Option<&'a str>,
    pub workers: Option<&'a str>,
    pub budget: Option<&'a str>,
}

fn command<'a>(alloc: Global) -> Result<Command<'a>, AllocError>
    ensures { IfOk result (λ c. app_of c ≡ app) }
{
    let mode = Arg::new(alloc, "mode")
        .required(true)
        .action(ArgAction::Set);
    let count = Arg::new(alloc, "count").action(ArgAction::Set);
    let workers = Arg::new(alloc, "workers")
        .long("workers")
        .action(ArgAction::Set);
    let budget = Arg::new(alloc, "budget")
        .long("budget")
        .action(ArgAction::Set);
    Command::new(alloc, "leanfront")
        .disable_help_flag(true)
        .arg(mode)?
        .arg(count)?
        .arg(workers)?
        .arg(budget)
}

/// The values that the words give; none where `clap` refuses them.
pub fn read<'a>(alloc: Global, words: &'a [String]) -> Result<Option<Values<'a>>, AllocError>
    ensures { IfOk result (λ o. option_map seen o ≡ given (map string_bytes words.entry.now)) }
{
    let command = command(alloc)?;
    match command.try_get_matches_from(words) {
        Ok(m) => Ok(Some(Values {
            mode: m.get_str("mode"),
            count: m.get_str("count"),
            workers: m.get_str("workers"),
            budget: m.get_str("budget"),
        })),
        Err(e) if e.kind() == ErrorKind::OutOfMemory => Err(AllocError),
        Err(_) => Ok(None),
    }
}
