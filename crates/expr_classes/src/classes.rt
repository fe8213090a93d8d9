//! Classes by the numbers of expressions.

ghost use Rattle.std.specs.Prelude.{◌≡◌};
ghost use Rattle.expr_classes.specs.Classes.{Numbered, AreBelow};

use crate::key::class_at;
use mrs_arena::ExprId;
use std::marker::Model;

/// The class of each expression of an arena, if it has one.
///
/// A clause sees the classes in the order of the expressions' numbers, and a number that is above them all.
#[derive(Drop)]
pub struct Classes {
    classes: Vec<Option<usize>>,
    count: usize,
}

impl Model for Classes {
    ghost use Rattle.expr_classes.specs.Classes.{Numbered, AreBelow};

    ghost Value = { Numbered };

    ghost view = { λ c. record { classes = c.classes.items; count = c.count } };

    ghost invariant = { λ c. AreBelow (record { classes = c.classes.items; count = c.count }) };
}

impl Classes {
    ghost use Rattle.std.specs.Prelude.{◌≡◌, ◌<◌, length, IfSome};
    ghost use Rattle.expr_classes.specs.Classes.{class_in, AreBelow};

    /// These classes, each of which is below the count.
    pub(crate) fn from_parts(classes: Vec<Option<usize>>, count: usize) -> Classes
        requires { AreBelow (record { classes = classes.items; count = count }) }
        ensures { result ≡ record { classes = classes.items; count = count } }
    {
        Classes { classes, count }
    }

    /// A number that is above all classes.
    pub fn count(&self) -> usize
        ensures { result ≡ self.now.count }
    {
        self.count
    }

    /// The class of an expression; `None` where it has none.
    pub fn class(&self, e: ExprId) -> Option<usize>
        requires { e.0 < length self.now.classes }
        ensures class { result ≡ class_in self.now.classes e.0 }
        ensures below { IfSome result (λ c. c < self.now.count) }
    {
        class_at(&self.classes, e)
    }
}
