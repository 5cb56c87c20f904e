//! From the words of a command line to what they ask for.
ghost use Rattle.std.specs.Prelude.{◌≡◌, ◌⊎◌, IfErr, IfOk, OnOk, map, string_bytes};
ghost use Rattle.clap.specs.Words.{kind_of};
ghost use Rattle.vm_words.specs.Words.{AreTaken, IsStatusOfWords, NumbersLieIn, asked};

use crate::command_line::CommandLine;
use crate::complaints::BAD_WORDS;
use crate::request::Request;
use clap::Error;
use clap::error::ErrorKind;
use std::alloc::Global;
use std::rt::Env;
use std::{env, io};

impl CommandLine {
    ghost use Rattle.vm_words.specs.Words.{line_of};

    // What the words ask for, or why they are not taken.
    fn parse<'a>(&self, alloc: Global, words: &'a [String]) -> Result<Request<'a>, Error>
        ensures asked { IfOk result (λ request. request ≡ asked (line_of self.now) (map string_bytes words.entry.now)) }
        ensures taken { OnOk result (AreTaken (line_of self.now) (map string_bytes words.entry.now)) }
        ensures refused { IfErr result (λ error. AreTaken (line_of self.now) (map string_bytes words.entry.now)
            → kind_of error ≡ ErrorKind.OutOfMemory) }
    {
        let mut command = self.command(alloc)?;
        let request = Request::new(command.try_get_matches_from_mut(words)?);
        self.check(alloc, &mut command, &request)?;
        Ok(request)
    }

    /// The program's name and the words behind it, or the status to end with: 2 where they can't be had as texts, and 3 where memory
    /// was refused.
    pub fn words(&self, system: &(impl Env + Eprint + AllocGlobal)) -> Result<Vec<String>, u8>
        ensures { IfErr result (λ status. (status ≡ 2) ⊎ (status ≡ 3)) }
    {
        let args = match env::args(system) {
            Ok(args) => args,
            Err(error) if error.kind() == io::ErrorKind::OutOfMemory => {
                return Err(self.no_memory(system));
            }
            Err(_) => return Err(self.usage(system)),
        };
        args.collect::<Vec<String>>(system.alloc())
            .map_err(|_| self.no_memory(system))
    }

    /// What the words ask for, of which the first is the program's name, or the status to end with: 2 where they are refused or ask
    /// for help, and 3 where memory was refused. What is wrong, and the help, is said on standard error.
    pub fn request<'a>(
        &self,
        system: &(impl Eprint + AllocGlobal),
        words: &'a [String],
    ) -> Result<Request<'a>, u8>
        ensures asked { IfOk result (λ request. request ≡ asked (line_of self.now) (map string_bytes words.entry.now)) }
        ensures numbers { IfOk result (NumbersLieIn (line_of self.now).values) }
        ensures taken { OnOk result (AreTaken (line_of self.now) (map string_bytes words.entry.now)) }
        ensures refused { IfErr result (IsStatusOfWords (line_of self.now) (map string_bytes words.entry.now)) }
    {
        match self.parse(system.alloc(), words) {
            Ok(request) => Ok(request),
            Err(error) if error.kind() == ErrorKind::OutOfMemory => Err(self.no_memory(system)),
            Err(error) => {
                let _ = eprint!(system; "{error}");
                Err(BAD_WORDS)
            }
        }
    }
}
