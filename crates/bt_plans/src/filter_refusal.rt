//! The refusals of requests for their filters.
ghost use Rattle.std.specs.Prelude.{◌≡◌};
ghost use Rattle.bt_plans.specs.FilterRefusals.{refusal_for_filter};

use bt_filter::Why;
use bt_messages::Refusal;

/// The refusal of a request for what is wrong with its filter (`google.bigtable.v2.RowFilter`).
pub fn refusal_for_filter(why: Why) -> Refusal
    ensures { result ≡ refusal_for_filter why }
{
    match why {
        Why::TooDeep => Refusal::FilterTooDeep,
        Why::TooMany => Refusal::TooManyFilters,
        Why::TooLarge => Refusal::FilterTooLarge,
        Why::TooManyPatterns => Refusal::TooManyPatterns,
        Why::SinkUnderCondition => Refusal::SinkUnderCondition,
        Why::FlagNotTrue => Refusal::FlagNotTrue,
        Why::BadLabel => Refusal::BadLabel,
        Why::TwoLabels => Refusal::TwoLabels,
        Why::NegativeCount => Refusal::NegativeCount,
        Why::BadTimeRange => Refusal::BadTimeRange,
        Why::BadPattern => Refusal::BadPattern,
        Why::LargePattern => Refusal::PatternTooLarge,
    }
}
