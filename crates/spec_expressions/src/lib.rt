//! What an expression is, how it is read from JSON, and what it is worth under a configuration, the visible fields and a
//! word. Definitions in `specs/`, and laws about them. The meaning of expressions is this project's own;
//! `docs/PROFILE.md` states it.
#![tactic(auto)]

ghost use Rattle.spec_expressions.specs.Known.{KnownStays, RestsOnNoOther};
ghost use Rattle.spec_expressions.specs.Laws.{AreKleene, AreSlices, EachObjectIsOne, EqualIsSymmetric, NamesAreLimited, ShapesAreRead};

/// A law on truths: the tables are Kleene's strong ones. They agree with Booleans on what is known, a No decides an And
/// beside anything, and And and Or mirror each other.
pub fn truths_are_kleene()
    ensures { AreKleene }
{}

/// A law on values: one that is not Open stays as it is, whatever becomes known of further parameters, and whatever the
/// objects may mean that are read as Other.
pub fn known_stays()
    ensures parameters { KnownStays }
    ensures others { RestsOnNoOther }
{}

/// A law on values: either side of `==` may stand first, also where one of two bit values has `x`.
pub fn equal_is_symmetric()
    ensures { EqualIsSymmetric }
{}

/// A law on fields: their bits write the slice of the word, are equal to a pattern where it holds of that slice, and a
/// part of them is the field that has that part.
pub fn fields_are_slices()
    ensures { AreSlices }
{}

/// A law on the walk: limits apart, it has a value exactly at an object.
pub fn each_object_is_one()
    ensures { EachObjectIsOne }
{}

/// A law on the walk, a line for each shape: the parts of an object are read first, then the name that it holds, and then
/// it is counted itself. What is no object is a fault.
pub fn each_shape_is_read()
    ensures { ShapesAreRead }
{}

/// A law on the walk: the limit on names is passed at the expression that holds the name, behind its parts.
pub fn names_are_limited()
    ensures { NamesAreLimited }
{}
