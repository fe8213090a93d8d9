//! Kinds of parameters.

ghost use Rattle.std.specs.Prelude.{◌≡◌};
ghost use Rattle.spec_features.specs.Features.{is_boolean};
ghost use Rattle.features_reader.specs.FeatureViews.{param_kind_of};

use mrs_schema::ParamKind;

/// Whether a parameter is on or off.
pub fn is_boolean(kind: ParamKind) -> bool
    ensures { result ≡ is_boolean (param_kind_of kind) }
{
    match kind {
        ParamKind::Boolean => true,
        ParamKind::Integer | ParamKind::Enum => false,
    }
}
