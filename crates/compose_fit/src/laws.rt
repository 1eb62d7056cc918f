//! Laws over definitions alone.

ghost use Rattle.compose_fit.specs.Fit.{IsMisfit, WiresFit};
ghost use Rattle.compose_fit.specs.declared.misfit.Misfit.{Misfit};
ghost use Rattle.compose_left.specs.Wiring.{Wiring};

/// Where some wire is the first that does not fit, not each wire fits.
pub fn what_does_not_fit()
    ensures { (w : Wiring) (m : Misfit) → IsMisfit w m → WiresFit w → ⊥ }
{}
