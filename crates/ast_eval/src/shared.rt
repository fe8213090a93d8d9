//! Configurations and fields may be lent to several threads and moved from one to another, and so may values.

use crate::config::Config;
use crate::env::Env;
use crate::kleene::Truth;
use crate::val::Val;

fn shared<T: Send + Sync>() {}

fn configurations_are_shared() {
    shared::<Config>();
}

fn fields_are_shared<'a>() {
    shared::<Env<'a>>();
}

fn values_are_shared() {
    shared::<Truth>();
    shared::<Val>();
}
