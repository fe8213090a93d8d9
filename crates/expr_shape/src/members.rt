//! Members of objects, read as parts of expressions are.

ghost use Rattle.std.specs.Prelude.{◌≡◌, option_map, option_and_then};
ghost use Rattle.serde_json.specs.Data.{array};
ghost use Rattle.serde_json.specs.Find.{get};
ghost use Rattle.serde_json.specs.View.{view, items_view};
ghost use Rattle.spec_bits.specs.PatternText.{pattern_in};
ghost use Rattle.spec_expressions.specs.Shape as spec;
ghost use Rattle.bit_pattern.specs.Views.{digits_of};

use bit_pattern::Pattern;
use mrs_names::is_name;
use serde_json::Value;

/// The member of that name, if it is a text.
pub(crate) fn text_at<'v>(value: &'v Value, key: &str) -> Option<&'v str>
    ensures { option_map (λ s. s.now) result ≡ spec.text_at key.now (view value.now) }
{
    match value.get(key) {
        Some(found) => found.as_str(),
        None => None,
    }
}

/// Whether the member of that name is that text.
pub(crate) fn says(value: &Value, key: &str, wanted: &str) -> bool
    ensures { result ≡ spec.says key.now wanted.now (view value.now) }
{
    match text_at(value, key) {
        Some(text) => wanted == text,
        None => false,
    }
}

/// The member of that name, if it is a text within the limits on names.
pub(crate) fn name_at<'v>(value: &'v Value, key: &str) -> Option<&'v str>
    ensures { option_map (λ s. s.now) result ≡ spec.name_at key.now (view value.now) }
{
    match text_at(value, key) {
        Some(text) if is_name(text) => Some(text),
        _ => None,
    }
}

/// The pattern that the member of that name writes, if it is the text of one.
pub(crate) fn bits_at(value: &Value, key: &str) -> Option<Pattern>
    ensures { option_map digits_of result ≡ spec.bits_at key.now (view value.now) }
{
    match text_at(value, key) {
        Some(text) => pattern_in(text),
        None => None,
    }
}

/// The pattern that a text writes, if it writes one.
fn pattern_in(text: &str) -> Option<Pattern>
    ensures { option_map digits_of result ≡ spec.accepted (pattern_in text.now) }
{
    match Pattern::read(text) {
        Ok(pattern) => Some(pattern),
        Err(_) => None,
    }
}

/// Whether the member of that name is an object.
pub(crate) fn has_object(value: &Value, key: &str) -> bool
    ensures { result ≡ spec.has_object key.now (view value.now) }
{
    match value.get(key) {
        Some(found) => found.is_object(),
        None => false,
    }
}

/// Whether the member of that name is an array of objects.
pub(crate) fn has_objects(value: &Value, key: &str) -> bool
    ensures { result ≡ spec.has_objects key.now (view value.now) }
{
    match value.get(key) {
        Some(found) => is_array_of_objects(found),
        None => false,
    }
}

fn is_array_of_objects(value: &Value) -> bool
    ensures { result ≡ spec.is_array_of_objects (view value.now) }
{
    match value.as_array() {
        Some(list) => are_objects(list),
        None => false,
    }
}

fn are_objects(list: &[Value]) -> bool
    ensures { result ≡ spec.are_objects (items_view list.now) }
{
    for value in list {
        if !value.is_object() {
            return false;
        }
    }
    true
}

/// The one element of the array that the member of that name is, if it is one with no other.
pub(crate) fn the_one_at<'v>(value: &'v Value, key: &str) -> Option<&'v Value>
    ensures { option_map (λ v. view v.now) result ≡ option_and_then spec.the_one (get key.now (view value.now)) }
{
    match value.get(key) {
        Some(found) => the_one(found),
        None => None,
    }
}

fn the_one(value: &Value) -> Option<&Value>
    ensures { option_map (λ v. view v.now) result ≡ spec.the_one (view value.now) }
{
    match value.as_array() {
        Some(list) => sole(list),
        None => None,
    }
}

fn sole(list: &[Value]) -> Option<&Value>
    ensures { option_map (λ v. view v.now) result ≡ spec.the_one (array (items_view list.now)) }
{
    match list {
        [] => None,
        [only] => Some(only),
        [_, _, ..] => None,
    }
}
