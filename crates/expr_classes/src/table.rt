//! Classes by their keys.

ghost use Rattle.std.specs.Prelude.{◌≡◌};
ghost use Rattle.expr_classes.specs.Terms.{terms_behind, AreKeys};

use crate::key::Key;
use crate::memory::NoMemory;
use indexmap::IndexSet;
use std::alloc::Global;
use std::marker::Model;

/// Classes of expressions and lists, numbered from 0 in the order in which they came first.
///
/// A clause sees the expressions and lists themselves.
#[derive(Drop)]
pub(crate) struct Table {
    keys: IndexSet<Key>,
}

impl Model for Table {
    ghost use Rattle.std.specs.Prelude.{List, []};
    ghost use Rattle.std.specs.Coded.{coded_list};
    ghost use Rattle.expr_classes.specs.Terms.{Term, term_code, terms_behind, AreKeys};

    ghost Value = { List Term };

    ghost coded = { coded_list term_code };

    ghost view = { λ t. terms_behind [] t.keys.keys };

    ghost invariant = { λ t. AreKeys t.keys.keys };
}

impl Table {
    ghost use Rattle.std.specs.Prelude.{◌≡◌, ◌++◌, ◌∷◌, ℕ, List, [], Some, length, slice_get, OnErr, IfOk, OnOk};
    ghost use Rattle.expr_classes.specs.Terms.{Term, term_of, terms_behind, HasTerms, AreKeys, AreApart};

    /// No classes.
    pub fn new(alloc: Global) -> Table
        ensures { result ≡ [] }
    {
        Table {
            keys: IndexSet::new(alloc),
        }
    }

    /// How many classes there are.
    pub fn len(&self) -> usize
        ensures count { result ≡ length self.now }
        ensures apart { AreApart self.now }
    {
        self.keys.len()
    }

    /// The class of a key.
    pub fn class(&mut self, key: Key) -> Result<usize, NoMemory>
        requires { HasTerms self.old key }
        ensures class { IfOk result (λ c. slice_get self.new c ≡ Some (term_of self.old key)) }
        ensures more { (more : List Term) × (self.new ≡ self.old ++ more) }
        ensures apart { AreApart self.new }
    {
        let (class, _) = self.keys.insert_full(key)?;
        Ok(class)
    }
}
