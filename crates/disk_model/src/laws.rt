//! Laws of the moments at which a crash may come.
ghost use Rattle.std.specs.Prelude.{◌⊎◌, ℕ, List};
ghost use Rattle.disk_model.specs.Content.{Content};
ghost use Rattle.disk_model.specs.Moments.{GoesOn, LeftSince, LeftAfter};

/// Two runs of calls, one behind the other: a crash at a moment of the whole leaves what one at a
/// moment of the first may leave, or of the second, and nothing else. So what each call says of its
/// own moments holds of a list of calls, and no moment between two calls is left out.
pub fn moments_of_two_runs()
    ensures goes_on { (old mid new : List Content) → GoesOn old mid → GoesOn mid new → GoesOn old new }
    ensures since { (old mid new : List Content) (image : List ℕ) → GoesOn mid new
        → LeftSince old new image → LeftAfter mid new image ⊎ LeftSince old mid image }
    ensures after { (old mid new : List Content) (image : List ℕ) → GoesOn mid new
        → LeftAfter old new image → LeftAfter mid new image ⊎ LeftAfter old mid image }
    ensures first { (old mid new : List Content) (image : List ℕ) → GoesOn mid new
        → LeftSince old mid image → LeftSince old new image }
    ensures second { (old mid new : List Content) (image : List ℕ) → GoesOn old mid
        → LeftSince mid new image → LeftSince old new image }
{}
