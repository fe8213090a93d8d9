//! A command: its verb, and its pairs.

use crate::commands::{Request, Verb};
use crate::pairs::Pairs;
use crate::values::number_by;
use std::marker::Model;

/// A command that words say: its verb, and the keys and values that follow it. No key that it needs is missing.
#[derive(Drop)]
pub struct Command<'a> {
    verb: Verb,
    pairs: Pairs<'a>,
}

impl<'a> Model for Command<'a> {
    ghost use Rattle.std.specs.Prelude.{List, ℕ};
    ghost use Rattle.mrs_command.specs.declared.commands.Verb.{Verb};
    ghost use Rattle.mrs_command.specs.Commands.{IsSaid};

    ghost Value = { Verb × List (List ℕ × List ℕ) };

    ghost view = { λ c. (c.verb, c.pairs) };

    ghost invariant = { λ c. IsSaid (c.verb, c.pairs) };
}

impl<'a> Command<'a> {
    ghost use Rattle.std.specs.Prelude.{◌≡◌, option_map, Some, IsTrue};
    ghost use Rattle.spec_command.specs.Setting.{value_in};
    ghost use Rattle.spec_command.specs.Commands.{is_one_of, number_keys};
    ghost use Rattle.spec_command.specs.Words.{asked, IsNumber};
    ghost use Rattle.mrs_command.specs.Commands.{IsSaid, command_of, asked_of, IsLimited, ArePinsFew};

    /// The command of that verb and those pairs.
    pub(crate) fn new(verb: Verb, pairs: Pairs<'a>) -> Command<'a>
        requires { IsSaid (verb, pairs) }
        ensures { result ≡ (verb, pairs.entry) }
    {
        Command { verb, pairs }
    }

    /// The verb.
    pub fn verb(&self) -> Verb
        ensures { result ≡ self.now.0 }
    {
        self.verb
    }

    /// The keys and values behind the verb, in the order of the words.
    pub fn pairs(&self) -> Pairs<'a>
        ensures { result ≡ self.now.1 }
    {
        self.pairs.again()
    }

    /// The value of the first word with that key; `None` exactly where no word has it.
    pub fn value(&self, key: &str) -> Option<&'a str>
        ensures { option_map (λ value. value.now) result ≡ value_in key.now self.now.1 }
    {
        self.pairs.value(key)
    }

    /// The number that the value of a key of numbers is read as; `None` exactly where no word has the key.
    pub fn number(&self, key: &str) -> Option<u128>
        requires { IsTrue (is_one_of number_keys key.now) }
        ensures { IsNumber key.now self.now.1 result }
    {
        let value = self.pairs.value(key)?;
        number_by(key, value)
    }

    /// What the command asks for.
    pub(crate) fn request(&self) -> Request<'a>
        ensures asked { asked (command_of self.now) ≡ Some (asked_of result) }
        ensures limited { IsLimited result }
        ensures few { ArePinsFew result }
    {
        match self.verb.request(&self.pairs) {
            Some(request) => request,
            None => unreachable!(),
        }
    }
}
