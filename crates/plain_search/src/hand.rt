//! The plan in hand.
ghost use Rattle.std.specs.Prelude.{◌≡◌};
ghost use Rattle.plain_search.specs.Hands.{can_beat};

use plan_rule::Plan;

/// The best plan so far, and its total.
#[derive(Drop)]
pub struct Hand {
    pub plan: Plan,
    pub total: u32,
}

/// Whether a plan of this total would be better than the plan in hand, if there is one.
pub(crate) fn can_beat(hand: &Option<Hand>, sum: u32) -> bool
    ensures { result ≡ can_beat hand.now sum }
{
    match hand {
        Some(hand) => sum < hand.total,
        None => true,
    }
}
