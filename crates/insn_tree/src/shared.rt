//! Trees may be lent to several threads and moved from one to another.

use crate::field_range::FieldRange;
use crate::label_ref::LabelRef;
use crate::tree::Tree;

fn shared<T: Send + Sync>() {}

fn trees_are_shared() {
    shared::<Tree>();
}

fn fields_are_shared() {
    shared::<FieldRange>();
}

fn labels_are_shared<'a>() {
    shared::<LabelRef<'a>>();
}
