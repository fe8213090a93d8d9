//! What follows from the definitions.

ghost use Rattle.std.specs.Prelude.{◌≡◌, ◌≢◌, ◌↔◌, ◌+◌, ℕ, ℤ, Bool, true, List, length, ◌⊎◌, Some, None, Ok, Err};
ghost use Rattle.std.specs.List.{AllByRecursion};
ghost use Rattle.spec_refutation.specs.Literals.{satisfies};
ghost use Rattle.spec_refutation.specs.Derivation.{Step};
ghost use Rattle.spec_refutation.specs.Refutation.{Refutes, Fails, failure};
ghost use Rattle.spec_refutation.specs.Reading.{IsHint, Reads, IsFault, LogIn, FaultIn};
ghost use Rattle.spec_refutation.specs.LogReading.{log_in};

/// Where a log refutes clauses, no assignment satisfies them.
pub fn refutations_are_sound()
    ensures { (clauses : List (List ℤ)) (steps : List Step) → Refutes clauses steps
        → (v : ℕ → Bool) → satisfies v clauses ≢ true }
{}

/// Where a log refutes clauses, each hint of each step is at least 1 and at most the number of clauses
/// and steps together.
pub fn refutations_hint_within_bounds()
    ensures { (clauses : List (List ℤ)) (steps : List Step) → Refutes clauses steps
        → AllByRecursion (λ (s : Step). AllByRecursion (IsHint (length clauses + length steps)) s.1) steps }
{}

/// A log refutes clauses, or it fails at one number, and not both.
pub fn each_log_has_one_outcome()
    ensures some { (clauses : List (List ℤ)) (steps : List Step)
        → Refutes clauses steps ⊎ ((n : ℕ) × Fails clauses steps n) }
    ensures not_both { (clauses : List (List ℤ)) (steps : List Step) (n : ℕ)
        → Refutes clauses steps → Fails clauses steps n → ⊥ }
    ensures one { (clauses : List (List ℤ)) (steps : List Step) (m n : ℕ)
        → Fails clauses steps m → Fails clauses steps n → m ≡ n }
{}

/// Each text is that of a log, or it has a place at which it is not as demanded.
pub fn each_text_has_a_reading()
    ensures { (text : List ℕ) → LogIn text ⊎ FaultIn text }
{}

/// A text is that of one log at most. It has one fault at most, and none where it is a log's.
pub fn no_text_has_two_readings()
    ensures log { (text : List ℕ) (v w : ℕ) (cs ds : List (List ℤ)) (ss ts : List Step)
        → Reads text v cs ss → Reads text w ds ts → (v ≡ w) × (cs ≡ ds) × (ss ≡ ts) }
    ensures fault { (text : List ℕ) (m n : ℕ) → IsFault text m → IsFault text n → m ≡ n }
    ensures not_both { (text : List ℕ) (at v : ℕ) (cs : List (List ℤ)) (ss : List Step)
        → Reads text v cs ss → IsFault text at → ⊥ }
{}

/// A text is read as the log whose text it is, and any other to the place of its fault.
pub fn each_text_is_read()
    ensures log { (text : List ℕ) (v : ℕ) (cs : List (List ℤ)) (ss : List Step)
        → Reads text v cs ss ↔ (log_in text ≡ Ok (record { vars = v; clauses = cs; steps = ss })) }
    ensures fault { (text : List ℕ) (at : ℕ) → IsFault text at ↔ (log_in text ≡ Err at) }
{}

/// A log refutes clauses where no number is told at which it fails, and it fails at a number that is told.
pub fn each_failure_is_told()
    ensures none { (clauses : List (List ℤ)) (steps : List Step)
        → Refutes clauses steps ↔ (failure clauses steps ≡ None) }
    ensures one { (clauses : List (List ℤ)) (steps : List Step) (n : ℕ)
        → Fails clauses steps n ↔ (failure clauses steps ≡ Some n) }
{}
