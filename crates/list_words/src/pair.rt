//! Names with numbers.

ghost use Rattle.std.specs.Prelude.{◌≡◌, ◌<◌, length, position, IfSome, option_map};
ghost use Rattle.spec_command.specs.Setting.{is_equals, setting_in};
ghost use Rattle.spec_lines.specs.Given.{pair_in};

use number_text::number_below;

/// Numbers are below this.
pub(crate) const NUMBER_BOUND: u128 = 1 << 32;

/// The place of the first `=` of a token.
fn equals_at(token: &[u8]) -> Option<usize>
    ensures place { result ≡ position is_equals token.now }
    ensures within { IfSome result (λ at. at < length token.now) }
{
    token.iter().position(|byte| *byte == b'=')
}

/// What stands before and behind the first `=` of a token.
fn parts(token: &[u8]) -> Option<(&[u8], &[u8])>
    ensures { option_map (λ setting. (setting.0.now, setting.1.now)) result ≡ setting_in token.now }
{
    match equals_at(token) {
        Some(at) => Some((&token[..at], &token[at + 1..])),
        None => None,
    }
}

/// The name and the number of a token `NAME=NUMBER`, split at its first `=`. The name is not empty.
pub(crate) fn pair_in(token: &[u8]) -> Option<(&[u8], u32)>
    ensures { option_map (λ pair. (pair.0.now, pair.1)) result ≡ pair_in token.now }
{
    let (name, text) = parts(token)?;
    if name.is_empty() {
        return None;
    }
    let number = number_below(text, NUMBER_BOUND)?;
    Some((name, number as u32))
}
