//! A shelf of named documents.
ghost use Rattle.std.specs.Prelude.{◌≡◌, ◌≤◌};
ghost use Rattle.spec_io.specs.States.{Shelving};
ghost use Rattle.mrs_io.specs.Shelf.{Fetched};

use crate::FetchFault;
use std::alloc::Global;

pub trait Shelf {
    /// The documents, each a name and its bytes, of which the first of a name counts, None where the shelf does not tell
    /// them; and how often the shelf has failed. The count stops at the largest number of 64 bits.
    ghost shelving: { Self → Shelving };

    /// The whole document of that name, which has at most `limit` bytes.
    fn fetch(&mut self, alloc: Global, name: &str, limit: u64) -> Result<Vec<u8>, FetchFault>
        ensures answer { Fetched (shelving self.old).documents name.now limit (shelving self.old).faults (shelving self.new).faults result }
        ensures same { (shelving self.new).documents ≡ (shelving self.old).documents }
        ensures later { (shelving self.old).faults ≤ (shelving self.new).faults };
}
