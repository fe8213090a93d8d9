//! The tokens of a line, one after the other.

use crate::token::Token;
use std::marker::Model;

/// How many bytes a line has at most.
pub(crate) const MOST_BYTES: usize = 65_536;

/// The tokens of a line from a place on: the longest runs of bytes other than space. A clause sees those that are left.
#[derive(Drop)]
pub(crate) struct Tokens<'a> {
    line: &'a [u8],
    at: usize,
}

impl<'a> Model for Tokens<'a> {
    ghost use Rattle.std.specs.Prelude.{List, length, drop, ◌≤◌};
    ghost use Rattle.spec_lines.specs.Token.{Token, tokens_from};

    ghost Value = { List Token };

    ghost view = { λ t. tokens_from t.at (drop t.at t.line.now) };

    ghost invariant = { λ t. (t.at ≤ length t.line.now) × (length t.line.now ≤ 65536) };
}

impl<'a> Tokens<'a> {
    ghost use Rattle.std.specs.Prelude.{◌≡◌, ◌≤◌, length};
    ghost use Rattle.spec_lines.specs.Token.{tokens};

    /// The tokens of a line of at most 65,536 bytes.
    pub(crate) fn new(line: &'a [u8]) -> Tokens<'a>
        requires { length line.now ≤ 65536 }
        ensures { result ≡ tokens line.now }
    {
        Tokens { line, at: 0 }
    }
}

impl<'a> Iterator for Tokens<'a> {
    ghost use Rattle.std.specs.Iterator.{YieldsFirstBy, item_count};
    ghost use Rattle.list_words.specs.Scans.{token_of};

    type Item = Token<'a>;

    ghost next_gives = { YieldsFirstBy token_of (λ tokens. tokens) };

    ghost remaining = { item_count (λ tokens. tokens) };

    fn next(&mut self) -> Option<Token<'a>> {
        let (token, end) = first_token(self.line, self.at)?;
        self.at = end;
        Some(token)
    }
}

ghost use Rattle.std.specs.Prelude.{◌≡◌, ◌+◌, ◌≤◌, [], ◌∷◌, length, drop, MatchOption};
ghost use Rattle.spec_lines.specs.Token.{tokens_from};
ghost use Rattle.list_words.specs.Scans.{blanks, run, token_of};

/// The first token of a line from a place on, and the place behind it.
fn first_token(line: &[u8], at: usize) -> Option<(Token<'_>, usize)>
    requires at { at ≤ length line.now }
    requires few { length line.now ≤ 65536 }
    ensures { MatchOption result
        (tokens_from at (drop at line.now) ≡ [])
        (λ found. (tokens_from at (drop at line.now) ≡ token_of found.0 ∷ tokens_from found.1 (drop found.1 line.now)) × (found.1 ≤ length line.now)) }
{
    let start = behind_blanks(line, at);
    if start >= line.len() {
        return None;
    }
    let end = behind_run(line, start);
    let token = Token {
        at: start as u32,
        text: &line[start..end],
    };
    Some((token, end))
}

/// The place behind the spaces that stand from a place on.
fn behind_blanks(line: &[u8], at: usize) -> usize
    requires { at ≤ length line.now }
    ensures place { result ≡ at + blanks (drop at line.now) }
    ensures within { result ≤ length line.now }
{
    for place in at..line.len() {
        if line[place] != b' ' {
            return place;
        }
    }
    line.len()
}

/// The place behind the other bytes that stand from a place on.
fn behind_run(line: &[u8], at: usize) -> usize
    requires { at ≤ length line.now }
    ensures place { result ≡ at + run (drop at line.now) }
    ensures within { result ≤ length line.now }
{
    for place in at..line.len() {
        if line[place] == b' ' {
            return place;
        }
    }
    line.len()
}
