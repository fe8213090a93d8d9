//! The keys and values behind a command.
ghost use Rattle.std.specs.Prelude.{◌≡◌, map, string_bytes, option_map, IsTrue};
ghost use Rattle.std.specs.List.{list_all};
ghost use Rattle.spec_command.specs.Setting.{settings_in, value_in};
ghost use Rattle.spec_command.specs.Pins.{pins_in};
ghost use Rattle.mrs_command.specs.Words.{is_setting};

use crate::pins::Pins;
use std::marker::Model;

/// The keys and values of words, in their order, which they borrow.
#[derive(Drop)]
pub struct Pairs<'a> {
    words: &'a [String],
}

impl<'a> Model for Pairs<'a> {
    ghost use Rattle.std.specs.Prelude.{List, ℕ, map, string_bytes, IsTrue};
    ghost use Rattle.std.specs.List.{list_all};
    ghost use Rattle.spec_command.specs.Setting.{settings_in};
    ghost use Rattle.mrs_command.specs.Words.{is_setting};

    ghost Value = { List (List ℕ × List ℕ) };

    ghost view = { λ s. settings_in (map string_bytes s.words.now) };

    ghost invariant = { λ s. IsTrue (list_all is_setting (map string_bytes s.words.now)) };
}

impl<'a> Pairs<'a> {
    /// The pairs that words say, of which each has a `=`.
    pub(crate) fn new(words: &'a [String]) -> Pairs<'a>
        requires { IsTrue (list_all is_setting (map string_bytes words.now)) }
        ensures { result ≡ settings_in (map string_bytes words.now) }
    {
        Pairs { words }
    }

    /// The same pairs, to go through them.
    pub(crate) fn again(&self) -> Pairs<'a>
        ensures { result ≡ self.now }
    {
        Pairs::new(self.words)
    }

    /// The value of the first pair with that key; `None` exactly where none has it.
    pub(crate) fn value(&self, key: &str) -> Option<&'a str>
        ensures { option_map (λ value. value.now) result ≡ value_in key.now self.now }
    {
        for (found, value) in self.again() {
            if key == found {
                return Some(value);
            }
        }
        None
    }

    /// The pins among the pairs, in their order.
    pub(crate) fn pins(&self) -> Pins<'a>
        ensures { result ≡ pins_in self.now }
    {
        Pins::new(self.again())
    }
}

impl<'a> Iterator for Pairs<'a> {
    ghost use Rattle.std.specs.Iterator.{YieldsFirstBy, item_count};

    type Item = (&'a str, &'a str);

    ghost next_gives = { YieldsFirstBy (λ pair. (pair.0.now, pair.1.now)) (λ pairs. pairs) };

    ghost remaining = { item_count (λ pairs. pairs) };

    fn next(&mut self) -> Option<(&'a str, &'a str)> {
        let (word, rest) = self.words.split_first()?;
        self.words = rest;
        word.split_once('=')
    }
}
