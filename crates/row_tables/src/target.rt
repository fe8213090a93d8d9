//! The objects of the outside.
use crate::stop::Stop;

/// An object of the outside.
#[derive(Clone, Copy, PartialEq, Eq)]
pub enum Target {
    Shelf,
    Input,
    Out,
    Err,
}

impl Target {
    /// The object of that name.
    pub fn read(name: &str) -> Result<Target, Stop> {
        match name {
            "shelf" => Ok(Target::Shelf),
            "input" => Ok(Target::Input),
            "out" => Ok(Target::Out),
            "err" => Ok(Target::Err),
            _ => Err(Stop::Line("the objects are shelf, input, out and err")),
        }
    }

    pub fn name(self) -> &'static str {
        match self {
            Target::Shelf => "shelf",
            Target::Input => "input",
            Target::Out => "out",
            Target::Err => "err",
        }
    }
}
