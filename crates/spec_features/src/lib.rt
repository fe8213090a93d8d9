//! What features are, which configurations of them fit, which one is first, and the clauses that say so. Definitions in
//! `specs/`, and laws about them.
#![tactic(auto)]

ghost use Rattle.spec_features.specs.Laws.{EachExtends, FactsAreEqual, FirstFaultDecides, FirstsAreFirst, FirstsAreFound, PartsAreCounted};

/// A law on atoms: two expressions state one fact exactly where they are equal and no Other stands in them.
pub fn facts_are_equal()
    ensures { FactsAreEqual }
{}

/// A law on clauses: states of parameters and atoms extend to the auxiliaries in exactly one way so that the clauses of the
/// connectives hold. With that extension all clauses hold exactly where the configuration fits.
pub fn each_configuration_extends()
    ensures { EachExtends }
{}

/// A law on clauses: their first solution begins with the first configuration that fits, and the first configuration that
/// fits, extended, is their first solution.
pub fn firsts_are_first()
    ensures { FirstsAreFirst }
{}

/// A law on the walk over a document: what decides is the first of its events that is a fault or passes a limit.
pub fn first_fault_decides()
    ensures { FirstFaultDecides }
{}

/// A law on documents: the connectives and other parts of the constraints that are read are together no more than the
/// expressions that are counted on the way.
pub fn parts_are_counted()
    ensures { PartsAreCounted }
{}

/// A law on configurations: going through all lists of states in order, on before off, finds the first that fits, and
/// none exactly where none fits.
pub fn firsts_are_found()
    ensures { FirstsAreFound }
{}
