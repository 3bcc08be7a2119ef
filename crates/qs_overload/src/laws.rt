//! Laws: that what is picked of lists is determined.

ghost use Rattle.qs_overload.specs.Best.{BestIsDetermined};

/// Of the same lists the same is picked.
pub fn best_is_determined()
    ensures { BestIsDetermined }
{}
