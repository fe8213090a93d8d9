//! What a Registers document of the profile means: its registers with their fieldsets, fields and accessor entries, and
//! what a fieldset shows of a value. Definitions alone, in `specs/`, and laws about them, in `proofs/`. The profile is this
//! project's own, after Arm's machine-readable architecture (AARCHMRS); `docs/PROFILE.md` states it.
#![tactic(auto)]

ghost use Rattle.spec_registers.specs.Gaps.{GapsAreExact};
ghost use Rattle.spec_registers.specs.Reading.{FirstFaultDecides};
ghost use Rattle.spec_registers.specs.Sound.{RegistersAreSound};
ghost use Rattle.spec_registers.specs.View.{ViewsRecombine};

/// A law on the walk over a document: what decides is the first of its events that is a fault or passes a limit.
pub fn first_fault_decides()
    ensures { FirstFaultDecides }
{}

/// A law on gaps: a bit of a fieldset stands in one exactly where it is not covered. They are not empty, end within the
/// fieldset, and do not touch, the highest coming first.
pub fn gaps_are_exact()
    ensures { GapsAreExact }
{}

/// A law on views: under each configuration the pieces of a fieldset recombine to the value, whatever the fieldset is. Each
/// bit stands in a piece, and each piece agrees with the value in all its bits.
pub fn views_recombine()
    ensures { ViewsRecombine }
{}

/// A law on the registers of an accepted document: there are no more of them, of the fieldsets of one and of accessor
/// entries than there may be, names are within their limits, fieldsets have 1 to 128 bits, the ranges of fields lie within
/// their fieldset, and keys have 16 digits.
pub fn registers_are_sound()
    ensures { RegistersAreSound }
{}
