//! Expressions by the classes of their parts.

ghost use Rattle.std.specs.Prelude.{◌≡◌, ◌<◌, [], length, option_map};
ghost use Rattle.mrs_arena.specs.Expressions.{Below};
ghost use Rattle.expr_classes.specs.Classes.{class_in, key_of, parts_of, of_two, of_three};
ghost use Rattle.expr_classes.specs.declared.key.Key.TheVariants as key;

use mrs_arena::{ExprId, ExprRef, Func, Op};
use mrs_names::NameId;

/// An expression, or a list of expressions, whose parts are given by their classes. Two of one class have one key.
#[derive(Clone, Copy, PartialEq, Eq, Hash)]
pub(crate) enum Key {
    Truth(bool),
    Integer(i64),
    /// The width, the mask and the value of a pattern.
    Bits(u8, u128, u128),
    Name(NameId),
    Not(usize),
    Binary(Op, usize, usize),
    Call(Func, usize),
    Set(usize),
    Join(usize),
    Slice(usize, usize, usize),
    /// The list of no expressions.
    Empty,
    /// A list by its first expression and the list of the others.
    Chain(usize, usize),
}

/// The class of an expression.
pub(crate) fn class_at(classes: &[Option<usize>], e: ExprId) -> Option<usize>
    requires { e.0 < length classes.now }
    ensures { result ≡ class_in classes.now e.0 }
{
    classes[e.0 as usize]
}

/// The key of a negation.
fn not_key(part: Option<usize>) -> Option<Key>
    ensures { result ≡ option_map key.Not part }
{
    Some(Key::Not(part?))
}

/// The key of an operator's two sides.
fn binary_key(op: Op, left: Option<usize>, right: Option<usize>) -> Option<Key>
    ensures { result ≡ of_two (key.Binary op) left right }
{
    let left = left?;
    let right = right?;
    Some(Key::Binary(op, left, right))
}

/// The key of a function's arguments.
fn call_key(func: Func, args: Option<usize>) -> Option<Key>
    ensures { result ≡ option_map (key.Call func) args }
{
    Some(Key::Call(func, args?))
}

/// The key of a set of members.
fn set_key(members: Option<usize>) -> Option<Key>
    ensures { result ≡ option_map key.Set members }
{
    Some(Key::Set(members?))
}

/// The key of parts in a row.
fn join_key(parts: Option<usize>) -> Option<Key>
    ensures { result ≡ option_map key.Join parts }
{
    Some(Key::Join(parts?))
}

/// The key of a slice.
fn slice_key(bits: Option<usize>, high: Option<usize>, low: Option<usize>) -> Option<Key>
    ensures { result ≡ of_three key.Slice bits high low }
{
    Some(Key::Slice(bits?, high?, low?))
}

/// The key of an expression by the classes of its parts and of its list; `None` where a part has no class, and of what is
/// none of the expressions.
pub(crate) fn key_of(classes: &[Option<usize>], list: Option<usize>, e: ExprRef<'_>) -> Option<Key>
    requires { Below (length classes.now) e }
    ensures { result ≡ key_of classes.now list e.entry }
{
    match e {
        ExprRef::Truth(truth) => Some(Key::Truth(truth)),
        ExprRef::Integer(n) => Some(Key::Integer(n)),
        ExprRef::Bits(pattern) => Some(Key::Bits(pattern.width, pattern.mask, pattern.value)),
        ExprRef::Name(name) => Some(Key::Name(name)),
        ExprRef::Not(part) => not_key(class_at(classes, part)),
        ExprRef::Binary(op, left, right) => {
            binary_key(op, class_at(classes, left), class_at(classes, right))
        }
        ExprRef::Call(func, _) => call_key(func, list),
        ExprRef::Set(_) => set_key(list),
        ExprRef::Join(_) => join_key(list),
        ExprRef::Slice(bits, high, low) => slice_key(
            class_at(classes, bits),
            class_at(classes, high),
            class_at(classes, low),
        ),
        ExprRef::Other => None,
    }
}

/// The parts of the list that an expression has; none where it has no list.
pub(crate) fn parts_of<'a>(e: ExprRef<'a>) -> &'a [ExprId]
    ensures { result.now ≡ parts_of e.entry }
{
    match e {
        ExprRef::Call(_, parts) | ExprRef::Set(parts) | ExprRef::Join(parts) => parts,
        _ => &[],
    }
}
