//! Deciders, and what they answer, may be lent to several threads and moved from one to another.

use crate::candidates::Candidates;
use crate::decider::Decider;
use crate::found::Found;

fn shared<T: Send + Sync>() {}

fn deciders_are_shared() {
    shared::<Decider>();
}

fn answers_are_shared<'a>() {
    shared::<Found>();
    shared::<Candidates<'a>>();
}
