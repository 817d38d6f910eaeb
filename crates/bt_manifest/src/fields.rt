//! Numbers of a slot, read from the left. Each function gives what it read and the bytes behind it.
ghost use Rattle.std.specs.Prelude.{◌≤◌, IfOk};
ghost use Rattle.bt_codec.specs.Reading.{Gives};
ghost use Rattle.bt_manifest.specs.Grammar.{last_moment, most_number};
ghost use Rattle.bt_manifest.specs.Reading.{bounded_at};

use bt_codec::{Fault, u64_at};

const MOST_NUMBER: u64 = 4_611_686_018_427_387_904;

const LAST_MOMENT: u64 = 253_402_300_799_999_999;

#[tactic(auto, unfolding(bt_codec::specs::Reading::number_with))]
fn bounded_at(least: u64, most: u64, bytes: &[u8]) -> Result<(u64, &[u8]), Fault>
    ensures read { Gives (λ x. (x.0, x.1.now)) result (bounded_at least most bytes.now) }
    ensures least { IfOk result (λ x. least ≤ x.0) }
    ensures most { IfOk result (λ x. x.0 ≤ most) }
{
    let (number, rest) = u64_at(bytes)?;
    if number < least || most < number {
        return Err(Fault::Bad { left: bytes.len() });
    }
    Ok((number, rest))
}

/// A sequence, a generation or the number of a file, from `least` on.
pub(crate) fn number_from(least: u64, bytes: &[u8]) -> Result<(u64, &[u8]), Fault>
    ensures read { Gives (λ x. (x.0, x.1.now)) result (bounded_at least most_number bytes.now) }
    ensures least { IfOk result (λ x. least ≤ x.0) }
    ensures most { IfOk result (λ x. x.0 ≤ most_number) }
{
    bounded_at(least, MOST_NUMBER, bytes)
}

pub(crate) fn moment_at(bytes: &[u8]) -> Result<(u64, &[u8]), Fault>
    ensures { Gives (λ x. (x.0, x.1.now)) result (bounded_at 0 last_moment bytes.now) }
{
    bounded_at(0, LAST_MOMENT, bytes)
}
