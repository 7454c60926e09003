//! The two kinds of plan texts: with early days and without.
ghost use Rattle.std.specs.Prelude.{◌≡◌};
ghost use Rattle.plan_text.specs.Texts as spec;

use shape_exact::Yard;

/// Whether the texts of the yard's plans tell early days: where a block of it has a cost for them.
#[tactic(auto, unfolding(crate::specs::Texts::tells_early))]
pub(crate) fn tells_early(yard: &Yard) -> bool
    ensures { result ≡ spec.tells_early yard.now }
{
    yard.blocks().iter().any(|block| block.early > 0)
}

/// The first line of the texts of the yard's plans, without its line feed.
pub(crate) fn head(yard: &Yard) -> &'static str
    ensures { result.now ≡ spec.head yard.now }
{
    if tells_early(yard) {
        "plan 2"
    } else {
        "plan 1"
    }
}
