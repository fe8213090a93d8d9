//! What a run of the program means: what each command opens and does, the result, and what each status says of the
//! outside.
//! Definitions, in `specs/`, and laws about them, which have their proofs in `proofs/`.
#![tactic(auto)]

ghost use Rattle.spec_run.specs.Exact.{AnswersAreExact, RunsComplete, FaultsComeLate, PrefixesGoOut};
ghost use Rattle.spec_run.specs.Fields.{OpenedFieldsTellWord};
ghost use Rattle.spec_run.specs.First.{FirstIsInUse, NoneIsInUse, PinIsUnknown, InUseOnMachine, InUseOfDocument, RefutationsAreChecked, RefutationsAreTold};
ghost use Rattle.spec_run.specs.RoundTrip.{BareLinesAreAssembled, ListsAreAssembled};
ghost use Rattle.spec_run.specs.Theorem.{ListingHolds};

/// A law on what statuses say: over a shelf and a source that tell their contents, every status that is neither a
/// fault of the outside nor want of memory is that of the outcome, and exactly the outcome's bytes went out.
pub fn answers_are_exact()
    ensures { AnswersAreExact }
{}

/// A law on what statuses say: over a shelf and a source that tell their contents, where no count of faults of shelf,
/// source or sink rose, the run ends as the outcome does, or memory ran out.
pub fn runs_complete()
    ensures { RunsComplete }
{}

/// A law on what statuses say: over a shelf and a source that tell their contents, a fault of the stream or of the sink
/// for lines comes only where nothing that comes before the stream decides.
pub fn faults_come_late()
    ensures { FaultsComeLate }
{}

/// A law on what statuses say: over a shelf and a source that tell their contents, a prefix of the outcome's bytes went
/// out after a failed read of the stream, after a failed write, and when memory ran out.
pub fn prefixes_go_out()
    ensures { PrefixesGoOut }
{}

/// Laws on the way back: the bare lines of whole words are assembled to the bytes of these words, and so a stream that
/// `list` puts out to its end in bare lines is given again by `asm` over these lines, with the same documents, set and
/// pins.
pub fn lists_are_assembled()
    ensures lines { BareLinesAreAssembled }
    ensures runs { ListsAreAssembled }
{}

/// A law on lines: on each machine that is opened, the fields and the rest that a line tells of a lone leaf, or of the alias
/// that is preferred at it, encode the word of the line, and no other word.
pub fn opened_fields_tell_word()
    ensures { OpenedFieldsTellWord }
{}

/// Laws on the configuration in use. It is the first that fits the features under the pins, where on comes before off.
/// Where it is told that none fits, no configuration does, and the clauses that are told are those of the features and
/// pins. A pin is told as unknown exactly where it is the first that names no boolean parameter. A machine that is
/// opened is under the first configuration that fits the features that are given for it, and so is what is opened of a
/// Features document. Where one of them is not opened since none fits, or since a pin is unknown, it is so of these
/// features.
pub fn first_is_in_use()
    ensures first { FirstIsInUse }
    ensures none { NoneIsInUse }
    ensures unknown { PinIsUnknown }
    ensures machine { InUseOnMachine }
    ensures document { InUseOfDocument }
{}

/// Laws on refutations: the text that a run puts on `err` where no configuration fits is read as a log of the clauses
/// that are told, over as many variables, and the log refutes them in as many steps as are told. `proof` over that text
/// says so.
pub fn refutations_are_checked()
    ensures checked { RefutationsAreChecked }
    ensures told { RefutationsAreTold }
{}

/// The listing theorem, of each run that answers as it is to. For every accepted release, pins and words, unless memory, a read
/// or a write fails: either the constraints' first configuration is used, and each word is listed with exactly the leaves that
/// patterns and conditions along their paths do not exclude, a lone leaf's printed fields encoding to that word alone; or none
/// exists, and a checked refutation is written.
pub fn listing_holds()
    ensures { ListingHolds }
{}
