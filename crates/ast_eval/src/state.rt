//! States of parameters.

/// What a configuration chooses for a parameter.
#[derive(Clone, Copy)]
pub enum State {
    /// A boolean parameter is on, or off.
    Flag(bool),
}

impl State {
    ghost use Rattle.std.specs.Prelude.{◌≡◌};
    ghost use Rattle.ast_eval.specs.Choices.{flag};
    ghost use Rattle.ast_eval.specs.ConfigView.{state_told};

    /// Whether a boolean parameter is on.
    pub fn flag(self) -> Option<bool>
        ensures { result ≡ flag (state_told self) }
    {
        match self {
            State::Flag(on) => Some(on),
        }
    }
}
