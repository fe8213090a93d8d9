//! Literals and their variables.

ghost use Rattle.std.specs.Prelude.{◌≡◌, ◌<◌, ◌≤◌, nat_abs, pos};

use feat_proof::Lit;

/// The variable of a literal.
pub fn variable(literal: Lit) -> u32
    ensures value { result ≡ nat_abs literal }
    ensures some { 0 < result }
    ensures few { result ≤ 2147483647 }
{
    literal.number().unsigned_abs()
}

/// The literal that is true where the variable is.
pub fn positive(variable: u32) -> Lit
    requires some { 0 < variable }
    requires few { variable ≤ 2147483647 }
    ensures { result ≡ pos variable }
{
    Lit::new(variable as i32)
}
