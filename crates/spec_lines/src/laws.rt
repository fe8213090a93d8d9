//! Laws about lines.

ghost use Rattle.spec_lines.specs.Encoded.{LoneFieldsTellWord};
ghost use Rattle.spec_lines.specs.SoundAliases.{AliasesAreSound};
ghost use Rattle.spec_lines.specs.ReadBack.{BareLinesAreRead, BareStreamsAreRead, SoundPathsAreReadable, SoundMachinesAreReadable};

/// A law: the fields and the rest that a line tells of a lone leaf, or of the alias that is preferred at it, encode the word of
/// the line, and no other word.
pub fn lone_fields_tell_word()
    ensures { LoneFieldsTellWord }
{}

/// A law on the aliases of an accepted document: there are no more of them than there may be, each is one of a leaf, and its path
/// is sound as those of leaves are.
pub fn aliases_are_sound()
    ensures { AliasesAreSound }
{}

/// Laws on bare lines: what one says, without its LF, is its word, and the lines of a stream of whole words are assembled to
/// the stream again. They hold where the leaves and aliases are those of a document without faults: their names are names, and no field
/// has the name `rest`.
pub fn bare_lines_are_read()
    ensures line { BareLinesAreRead }
    ensures stream { BareStreamsAreRead }
    ensures readable { SoundPathsAreReadable }
    ensures machines { SoundMachinesAreReadable }
{}
