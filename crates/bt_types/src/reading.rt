//! What is read, as far as its readers see it.
ghost use Rattle.std.specs.Prelude.{◌≤◌, ℕ, Bool, false};

/// What rows are read from: a disk, seen through what its readers may know of it.
pub trait Reading {
    /// Whether the bytes are told.
    ghost tells: { Self → Type 0 };

    /// How often a call of the disk beneath has failed.
    ghost faults: { Self → ℕ };

    /// Whether the last call of the disk beneath failed.
    ghost failing: { Self → Bool };

    /// The bytes of that file at that place are outside their format.
    ghost broken: { Self → ℕ → ℕ → Type 0 };

    /// What is read has not changed from the one to the other.
    ghost same: { Self → Self → Type 0 };

    ghost same_tells: { (x y : Self) → same x y → tells x → tells y };

    ghost same_self: { (x : Self) → same x x };

    ghost same_steps: { (x y z : Self) → same x y → same y z → same x z };

    // A count never falls.
    ghost same_faults: { (x y : Self) → same x y → faults x ≤ faults y };
}

/// The reading of a source that has no disk beneath it.
#[derive(Debug, Drop)]
pub struct NoReads;

impl Reading for NoReads {
    ghost tells = { λ _. Unit {0} };

    ghost faults = { λ _. 0 };

    ghost failing = { λ _. false };

    ghost broken = { λ _ _ _. ⊥ };

    ghost same = { λ _ _. Unit {0} };

    ghost same_tells = { λ _ _ _ told. told };

    ghost same_self = { λ _. tt };

    ghost same_steps = { λ _ _ _ _ _. tt };

    ghost use Rattle.std.proofs.Math.Nat.{le_refl};

    ghost same_faults = { λ _ _ _. le_refl 0 };
}
