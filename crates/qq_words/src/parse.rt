ghost use Rattle.std.specs.Prelude.{◌≡◌, IfOk, IsOkUnless, map, string_bytes};
ghost use Rattle.std.specs.Option.{option_map};
ghost use Rattle.clap.specs.Words.{found_of, rows_of};
ghost use Rattle.qq_words.specs.Words.{parsed};

use crate::program::program;
use clap::ArgMatches;
use clap::error::ErrorKind;
use qq_base::Memory;
use std::alloc::Global;

/// The command that `clap` finds in the words, with what it has found of its options.
pub fn parse<'a>(
    alloc: Global,
    words: &'a [String],
) -> Result<Option<(&'a str, ArgMatches<'a>)>, Memory>
    ensures ok { IfOk result (λ found.
        option_map (λ pair. (pair.0.now, rows_of (found_of pair.1))) found
        ≡ parsed (map string_bytes words.entry.now)) }
    ensures want { IsOkUnless result Memory.Want }
{
    let program = program(alloc)?;
    match program.try_get_matches_from(words) {
        Ok(mut matches) => Ok(matches.remove_subcommand()),
        Err(error) => {
            if error.kind() == ErrorKind::OutOfMemory {
                return Err(Memory::Want);
            }
            Ok(None)
        }
    }
}
