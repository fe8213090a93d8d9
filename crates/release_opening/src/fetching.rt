//! A document is fetched by its name, within the limit on its length.
ghost use Rattle.std.specs.Prelude.{◌≡◌, ◌≤◌, Bool, true, Ok};
ghost use Rattle.std.specs.Result.{result_map_both};
ghost use Rattle.spec_io.specs.Documents.{document_of};
ghost use Rattle.spec_run.specs.End as run;
ghost use Rattle.spec_run.specs.Opening.{by_bytes};
ghost use Rattle.release_opening.specs.Documents.{which_of};
ghost use Rattle.release_opening.specs.Opens.{Opens, IsOf};

use crate::document::Which;
use crate::opening_error::OpeningError;
use mrs_io::{FetchFault, Shelf};
use std::alloc::Global;

/// The greatest length of a document, in bytes.
const DOCUMENT_LIMIT: u64 = 268_435_456;

/// The bytes of the document of that name, or why they are not there.
pub(crate) fn fetch_document<V: Shelf>(
    alloc: Global,
    shelf: &mut V,
    which: Which,
    name: &str,
) -> Result<Vec<u8>, OpeningError>
    ensures opens { Opens (λ docs. by_bytes (which_of which) Ok (document_of name.now docs))
        (V.shelving shelf.old) (V.shelving shelf.new) (result_map_both (λ v. v.items) (λ e. e) result) }
    ensures named { (asked : run.Which → Bool) → asked (which_of which) ≡ true → IsOf asked result }
    ensures same { (V.shelving shelf.new).documents ≡ (V.shelving shelf.old).documents }
    ensures later { (V.shelving shelf.old).faults ≤ (V.shelving shelf.new).faults }
{
    match shelf.fetch(alloc, name, DOCUMENT_LIMIT) {
        Ok(bytes) => Ok(bytes),
        Err(FetchFault::Failed) => Err(OpeningError::NotRead { which }),
        Err(FetchFault::TooLong) => Err(OpeningError::TooLong { which }),
        Err(FetchFault::NoMemory) => Err(OpeningError::NoMemory),
    }
}
