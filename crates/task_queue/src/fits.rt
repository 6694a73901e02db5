ghost use Rattle.std.specs.Prelude.{ℕ};

/// Which values an end of a given number may put into a lane of a given key.
pub trait Fits {
    /// What all ends of a lane share, and contracts alone see.
    type Key;

    /// Of the lane's key, the number of the sending end and the value.
    ghost fits: { Self.Key → ℕ → Self → Type 0 };
}
