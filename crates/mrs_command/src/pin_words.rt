//! Which words are pins. Several words may have the key of a pin.
ghost use Rattle.std.specs.Prelude.{◌≡◌};
ghost use Rattle.spec_command.specs.Commands as spec;
ghost use Rattle.spec_command.specs.Pins.{pin_keys};
ghost use Rattle.spec_command.specs.Words.{is_pin};

use crate::commands::is_among;

/// How many words are pins at most.
pub(crate) const MOST_PINS: usize = 4_096;

/// Whether a key is that of a pin.
pub(crate) fn is_pin_key(key: &str) -> bool
    ensures { result ≡ spec.is_one_of pin_keys key.now }
{
    is_among(&["on", "off"], key)
}

/// Whether a word is a pin.
pub(crate) fn is_pin(word: &str) -> bool
    ensures { result ≡ is_pin word.now }
{
    match word.split_once('=') {
        Some((key, _)) => is_pin_key(key),
        None => false,
    }
}
