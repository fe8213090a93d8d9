//! Reads the words of a command line.
ghost use Rattle.std.specs.Prelude.{◌≡◌, ◌<◌, length, take, map, string_bytes, count_by, IfSome, IfNone, IfOk, IsTrue, MatchResult, Ok, Err};
ghost use Rattle.std.specs.List.{list_all};
ghost use Rattle.spec_command.specs.Setting.{setting_in};
ghost use Rattle.spec_command.specs.Words as spec;
ghost use Rattle.spec_command.specs.Request.{request};
ghost use Rattle.mrs_command.specs.Words.{is_setting};
ghost use Rattle.mrs_command.specs.Commands.{verb_of, command_of, asked_of, IsLimited, ArePinsFew};

use crate::bad_word::BadWord;
use crate::command::Command;
use crate::commands::{Request, Verb};
use crate::pairs::Pairs;
use crate::pin_words::{MOST_PINS, is_pin, is_pin_key};
use crate::values::takes;

/// The command that the words of a command line say, or the place of the first bad word.
///
/// The first word is the command's verb, and each other word is `key=value`, split at its first `=`. Bad words are an unknown
/// verb, a word without a `=`, a key that the verb does not have, a key that an earlier word has, an empty
/// value, a `form` that is neither `full` nor `bare`, a `max` that is no number up to 2^40, and of `on` and `off`, which
/// several words may have, a value that is no name, and all behind 4,096 of both. A missing verb is place 0. Where no word is
/// bad, a missing key is refused at the number of words, and so is a `check` that names neither document.
pub fn read_command(words: &[String]) -> Result<Command<'_>, BadWord>
    ensures { MatchResult result
        (λ said. spec.command (map string_bytes words.now) ≡ Ok (command_of said))
        (λ bad. spec.command (map string_bytes words.now) ≡ Err bad.place) }
{
    let [first, behind @ ..] = words else {
        return Err(BadWord { place: 0 });
    };
    let Some(verb) = Verb::named(first.as_str()) else {
        return Err(BadWord { place: 0 });
    };
    if let Some(place) = first_bad(verb, behind) {
        return Err(BadWord {
            place: place as u64 + 1,
        });
    }
    let pairs = Pairs::new(behind);
    match verb.request(&pairs) {
        Some(_) => Ok(Command::new(verb, pairs)),
        None => Err(BadWord {
            place: words.len() as u64,
        }),
    }
}

/// What the words of a command line ask for, or the place of the first bad word, which is that of their command.
pub fn read_request(words: &[String]) -> Result<Request<'_>, BadWord>
    ensures request { MatchResult result
        (λ asked. request (map string_bytes words.now) ≡ Ok (asked_of asked))
        (λ bad. request (map string_bytes words.now) ≡ Err bad.place) }
    ensures limited { IfOk result IsLimited }
    ensures few { IfOk result ArePinsFew }
{
    match read_command(words) {
        Ok(command) => Ok(command.request()),
        Err(bad) => Err(bad),
    }
}

/// The place of the first bad word among those behind a verb.
fn first_bad(verb: Verb, words: &[String]) -> Option<usize>
    ensures place { result ≡ spec.first_bad (verb_of verb).asks.keys (map string_bytes words.now) }
    ensures within { IfSome result (λ place. place < length words.now) }
    ensures settings { IfNone result (IsTrue (list_all is_setting (map string_bytes words.now))) }
{
    let mut pins = 0;
    for (place, word) in words.iter().enumerate() {
        let word = word.as_str();
        if !is_good(verb, &words[..place], pins, word) {
            return Some(place);
        }
        if is_pin(word) {
            pins += 1;
        }
    }
    None
}

/// Whether a word is good behind earlier words, of which each has a `=` and `pins` are pins.
fn is_good(verb: Verb, earlier: &[String], pins: usize, word: &str) -> bool
    requires settings { IsTrue (list_all is_setting (map string_bytes earlier.now)) }
    requires pins { pins ≡ count_by spec.is_pin (map string_bytes earlier.now) }
    ensures { result ≡ spec.is_good (verb_of verb).asks.keys (map string_bytes earlier.now) (setting_in word.now) }
{
    let Some((key, value)) = word.split_once('=') else {
        return false;
    };
    takes(key, value) && !value.is_empty() && verb.has_key(key) && has_room(earlier, pins, key)
}

/// Whether there is room for a key behind earlier words, of which each has a `=` and `pins` are pins.
fn has_room(earlier: &[String], pins: usize, key: &str) -> bool
    requires settings { IsTrue (list_all is_setting (map string_bytes earlier.now)) }
    requires pins { pins ≡ count_by spec.is_pin (map string_bytes earlier.now) }
    ensures { result ≡ spec.has_room (map string_bytes earlier.now) key.now }
{
    if is_pin_key(key) {
        pins < MOST_PINS
    } else {
        Pairs::new(earlier).value(key).is_none()
    }
}
