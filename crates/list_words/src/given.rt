//! What the tokens behind a label give.

use crate::field_name::name_for;
use crate::line_fault::{LineFault, LineWhy};
use crate::pair::pair_in;
use crate::pair_list::{MOST_PAIRS, PairList};
use crate::token::Token;
use crate::tokens::Tokens;
use insn_tree::FieldRange;
use mrs_names::{NameId, Names};

/// Pairs of fields and numbers, and maybe a rest.
///
/// The pairs are those before the first whose name no field of the leaf has, which is refused in any case; `count` is the
/// number of all.
#[derive(Drop)]
pub(crate) struct Given {
    pub(crate) pairs: PairList,
    pub(crate) count: usize,
    pub(crate) rest: Option<u32>,
}

ghost use Rattle.std.specs.Prelude.{◌≡◌, ◌<◌, ◌++◌, [], ◌∷◌, ℕ, List, All, length, Option, Ok, MatchResult};
ghost use Rattle.spec_lines.specs.Given as spec;
ghost use Rattle.insn_tree.specs.declared.field_range.FieldRange.{FieldRange};
ghost use Rattle.insn_tree.specs.Trees.{TreeParts};
ghost use Rattle.list_words.specs.Names.{IsNameFor};
ghost use Rattle.list_words.specs.Faults.{IsRefused};
ghost use Rattle.list_words.specs.Givens.{IsGiven, Puts};

impl Given {
    /// Nothing.
    pub(crate) fn nothing() -> Given
        ensures { (names : List (List ℕ)) (fields : List FieldRange) → IsGiven names fields result spec.nothing }
    {
        Given {
            pairs: PairList::new(),
            count: 0,
            rest: None,
        }
    }

    /// A pair more, whose name may be that of a field.
    fn put_pair(&mut self, name: Option<NameId>, value: u32)
        requires { self.old.count < 256 }
        ensures { (names : List (List ℕ)) (fields : List FieldRange) (text : List ℕ) (given : spec.Given) → IsGiven names fields self.old given → IsNameFor names fields text name
            → IsGiven names fields self.new (record given { pairs = given.pairs ++ (text, value) ∷ [] }) }
    {
        let Some(name) = name else {
            self.count += 1;
            return;
        };
        if self.pairs.len() != self.count {
            self.count += 1;
            return;
        }
        self.pairs.push(name, value);
        self.count += 1;
    }

    /// A rest, unless there is one.
    fn put_rest(&mut self, at: u32, value: u32) -> Result<(), LineFault>
        ensures { (names : List (List ℕ)) (fields : List FieldRange) (given : spec.Given) → IsGiven names fields self.old given → Puts names fields self.new result (spec.with_rest at given value given.rest) }
    {
        if self.rest.is_some() {
            return Err(LineFault {
                at,
                why: LineWhy::Pair,
            });
        }
        self.rest = Some(value);
        Ok(())
    }

    /// What a token gives more.
    fn put(
        &mut self,
        names: &Names,
        fields: &[FieldRange],
        token: &Token<'_>,
    ) -> Result<(), LineFault>
        requires { All (λ f. f.name.0 < length names.now) fields.now }
        ensures { (given : spec.Given) → IsGiven names.now fields.now self.old given
            → Puts names.now fields.now self.new result (spec.with_pair token.now.at given (spec.pair_in token.now.text.now)) }
    {
        let Some((name, value)) = pair_in(token.text) else {
            return Err(LineFault {
                at: token.at,
                why: LineWhy::Pair,
            });
        };
        if name == b"rest".as_slice() {
            return self.put_rest(token.at, value);
        }
        if self.count >= MOST_PAIRS {
            return Err(LineFault {
                at: token.at,
                why: LineWhy::Many,
            });
        }
        self.put_pair(name_for(names, fields, name), value);
        Ok(())
    }
}

/// Puts what the tokens behind a label give, by the fields of its leaf, where nothing is given yet. `given` is large, and so
/// is filled in place.
pub(crate) fn read_given(
    names: &Names,
    fields: &[FieldRange],
    tokens: Tokens<'_>,
    given: &mut Given,
) -> Result<(), LineFault>
    requires held { All (λ f. f.name.0 < length names.now) fields.now }
    requires nothing { IsGiven names.now fields.now given.old spec.nothing }
    ensures { Puts names.now fields.now given.new result (spec.given_behind spec.nothing tokens.entry) }
{
    for token in tokens {
        given.put(names, fields, &token)?;
    }
    Ok(())
}
