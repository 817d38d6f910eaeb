//! What holds of replies.
ghost use Rattle.bt_run_laws.specs.Replies.{RepliesLawful, RepliesValid};

use bt_laws::states_valid;

/// The records of a reply in a valid state may come in turn, and lead to a valid state.
pub fn replies_valid()
    ensures records { RepliesLawful }
    ensures state { RepliesValid }
{
    states_valid();
}
