//! Which leaves a word is found at, with which verdict, and which alias of a leaf is preferred. Definitions in `specs/`, and
//! laws about them.
#![tactic(auto)]

ghost use Rattle.spec_decode.specs.Verdict.{VerdictsAreExact};
ghost use Rattle.spec_decode.specs.Found.{FoundIsExact};
ghost use Rattle.spec_decode.specs.Preferred.{PreferredIsExact, PreferredHasLeafVerdict};
ghost use Rattle.spec_decode.specs.Bucket.{BucketsAreOne, BucketsHoldFound};
ghost use Rattle.spec_decode.specs.HasBucket.{WordsHaveBuckets};

/// A law on verdicts: a path's verdict is No exactly where an item on the path does not hold at the word or a condition
/// on it is No, each condition under the fields that are visible at its own node, and Yes exactly where all items hold
/// and all conditions are Yes.
pub fn verdicts_are_exact()
    ensures { VerdictsAreExact }
{}

/// A law on the leaves at which a word is found: they are those whose verdict is not No, each with its verdict, once and
/// in order.
pub fn found_is_exact()
    ensures { FoundIsExact }
{}

/// A law on buckets: each word has one, since each bit that is looked at leaves fewer leaves.
pub fn words_have_buckets()
    ensures { WordsHaveBuckets }
{}

/// A law on buckets: no word has two.
pub fn buckets_are_one()
    ensures { BucketsAreOne }
{}

/// A law on buckets: each leaf at which a word is found stands in the word's bucket, so that the leaves found among the
/// bucket's are all that are found.
pub fn buckets_hold_found()
    ensures { BucketsHoldFound }
{}

/// Laws on preferred aliases: the preferred alias of a leaf is the first of the leaf whose items hold and whose condition
/// and preference are both Yes under the fields that are visible at it, and there is none exactly where none is so. The
/// path of a preferred alias has the verdict of its leaf's path, so it excludes no word that the leaf's does not.
pub fn preferred_is_exact()
    ensures exact { PreferredIsExact }
    ensures verdict { PreferredHasLeafVerdict }
{}
