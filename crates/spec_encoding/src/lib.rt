//! The word that values of a path's shown fields and a rest are encoded to. Definitions in `specs/`, and laws about them.
#![tactic(auto)]

ghost use Rattle.spec_encoding.specs.Encoding.{EncodingIsExact, EncodesOneWord, OwnPairsEncode, PreferredEncodes, ExclusionIsExact};

/// Laws on encoding: a word is answered exactly where it has the values and the rest and the path does not exclude it; there
/// is at most one; and a word that the path does not exclude is encoded by its own shown fields and rest. The same holds
/// along the path to the alias that is preferred at a word, where the path to its leaf does not exclude the word.
pub fn encoding_is_exact()
    ensures exact { EncodingIsExact }
    ensures one { EncodesOneWord }
    ensures own { OwnPairsEncode }
    ensures alias { PreferredEncodes }
{}

/// A law on exclusion: the node that is told is the first from the root that excludes the word, and there is one exactly
/// where the verdict is No.
pub fn exclusion_is_exact()
    ensures { ExclusionIsExact }
{}
