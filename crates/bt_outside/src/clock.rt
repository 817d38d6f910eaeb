//! A clock.
ghost use Rattle.std.specs.Prelude.{◌≡◌, ℕ, ◌++◌, [], ◌∷◌, List};

/// Tells the time.
pub trait Clock {
    /// Whether the readings are told. A clock may stop telling them, and then does not begin again.
    ghost tells: { Self → Type 0 };

    /// The readings so far.
    ghost told: { Self → List ℕ };

    /// The time in microseconds since 1970-01-01T00:00:00Z.
    /// It never fails. One reading may be less than the one before it, and nothing else is said of
    /// it: a caller that needs rising moments takes the greater of two.
    fn now(&mut self) -> u64
        ensures tells { tells self.new → tells self.old }
        ensures told { tells self.new → told self.new ≡ told self.old ++ result ∷ [] };
}
