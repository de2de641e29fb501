//! Laws of draws, each the contract of a function that does nothing.

ghost use Rattle.dotmix.specs.Laws.{ListsDrawAlike, LongerDrawAlike, SeedsDrawAlike};

/// Coefficients past a pedigree's length don't change its draw.
#[tactic(auto, using(crate::proofs::LawLemmas::longer_draw_alike))]
pub fn longer_draw_alike()
    ensures { LongerDrawAlike }
{}

/// A seed's coefficients for two depths draw the same at each pedigree within the lesser depth.
#[tactic(auto, using(crate::proofs::LawLemmas::seeds_draw_alike))]
pub fn seeds_draw_alike()
    ensures { SeedsDrawAlike }
{}

/// So do those of a list, which are followed by zeros.
#[tactic(auto, using(crate::proofs::LawLemmas::lists_draw_alike))]
pub fn lists_draw_alike()
    ensures { ListsDrawAlike }
{}
