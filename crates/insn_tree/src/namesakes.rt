//! Finds the names that several paths have.

ghost use Rattle.std.specs.Prelude.{◌≡◌, ◌<◌, ◌^◌, ℕ, All, IfOk, length, map, slice_index_or};
ghost use Rattle.insn_tree.specs.Ends.{sakes, is_shared};

use crate::memory::NoMemory;
use mrs_names::NameId;
use std::alloc::Global;

/// For each of some names below `count`, whether it stands there more than once.
pub(crate) fn find_shared(
    alloc: Global,
    names: &[NameId],
    count: usize,
) -> Result<Vec<bool>, NoMemory>
    requires few { length names.now < 2 ^ 32 }
    requires within { All (λ name. name.0 < count) names.now }
    ensures { IfOk result (λ v. v.items ≡ map (λ name. is_shared (map (λ name. name.0) names.now) name.0) names.now) }
{
    let counts = count_names(alloc, names, count)?;
    let mut shared = Vec::with_capacity(alloc, names.len())?;
    for name in names {
        shared.push(counts[name.0 as usize] > 1)?;
    }
    Ok(shared)
}

/// How often each name below `count` stands there.
fn count_names(alloc: Global, names: &[NameId], count: usize) -> Result<Vec<u32>, NoMemory>
    requires few { length names.now < 2 ^ 32 }
    requires within { All (λ name. name.0 < count) names.now }
    ensures long { IfOk result (λ v. length v.items ≡ count) }
    ensures each { IfOk result (λ v. (id : ℕ) → id < count → slice_index_or v.items id 0 ≡ sakes (map (λ name. name.0) names.now) id) }
{
    let mut counts = vec![in alloc; 0; count]?;
    for name in names {
        counts[name.0 as usize] += 1;
    }
    Ok(counts)
}
