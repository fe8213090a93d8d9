//! The configuration in use of the features of a document is opened.
ghost use Rattle.std.specs.Prelude.{◌≡◌, ◌≤◌, ◌<◌, List, length, true, false};
ghost use Rattle.spec_command.specs.Commands.{pin_limit};
ghost use Rattle.spec_command.specs.Pins as spec;
ghost use Rattle.spec_features.specs.Features.{EachName};
ghost use Rattle.features_reader.specs.FeatureViews.{features_of, features_in, AreFeatures};
ghost use Rattle.spec_run.specs.Opening.{configuration_opened, configured};
ghost use Rattle.spec_run.specs.Commands.{of_checks};
ghost use Rattle.release_opening.specs.Opens.{Opens, IsOf};
ghost use Rattle.release_opening.specs.Pinned.{ArePins};
ghost use Rattle.release_opening.specs.Stages.{Comes};

use crate::choosing::choose;
use crate::configuration::OpenedConfiguration;
use crate::opening_error::OpeningError;
use crate::opening_features::open_features;
use crate::pinned::Pinned;
use feat_model::Pin;
use mrs_command::Pins;
use mrs_io::Shelf;
use mrs_names::Names;
use mrs_schema::Features;
use std::alloc::Global;

/// The first configuration that fits the features of a document and the pins, or why it is not opened.
pub fn open_configuration<V: Shelf>(
    alloc: Global,
    shelf: &mut V,
    features: &str,
    pins: Pins<'_>,
) -> Result<OpenedConfiguration, OpeningError>
    requires { length pins ≤ pin_limit }
    ensures opens { Opens (configuration_opened features.now pins.entry) (V.shelving shelf.old) (V.shelving shelf.new) result }
    ensures named { IsOf (of_checks false true) result }
    ensures same { (V.shelving shelf.new).documents ≡ (V.shelving shelf.old).documents }
    ensures later { (V.shelving shelf.old).faults ≤ (V.shelving shelf.new).faults }
{
    let Pinned { mut names, pins } = Pinned::new(alloc, pins)?;
    let features = open_features(alloc, shelf, features, &mut names)?;
    configure_by(alloc, names, &features, &pins)
}

/// The first configuration that fits features and pins, or why there is none.
fn configure_by(
    alloc: Global,
    names: Names,
    features: &Features,
    pins: &[Pin],
) -> Result<OpenedConfiguration, OpeningError>
    requires sound { AreFeatures features.now }
    requires held { EachName (λ n. n < length names) (features_of features.now) }
    requires few { length pins.now ≤ pin_limit }
    ensures { (asked : List spec.Pin) → ArePins names pins.now asked → Comes (configured (features_in names features.now) asked) result }
{
    let config = choose(alloc, &names, features, pins)?;
    Ok(OpenedConfiguration::new(names, config))
}
