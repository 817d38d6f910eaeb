//! What a slot says.
ghost use Rattle.std.specs.Prelude.{◌≡◌, ◌≤◌, Ok, Some, IfOk, IfErr};
ghost use Rattle.bt_codec.specs.Reading.{Gives};
ghost use Rattle.bt_manifest.specs.Grammar.{most_number};
ghost use Rattle.bt_manifest.specs.Slots.{CanStand, generation_at, latest, opened_at, slot_at};
ghost use Rattle.bt_manifest.specs.Loading.{Answers, CouldStand, IsSlotFault};

use crate::Snapshot;
use crate::fields::number_from;
use crate::reading::read_snapshot;
use bt_codec::{Fault, text32_at};
use bt_gate::LogFault;
use std::alloc::Global;

const MOST_OF_BODY: usize = 1_073_741_824;

/// The snapshot and the generation of the slot in that file, which has these bytes, or none where
/// it is closed.
pub(crate) fn slot_of(
    alloc: Global,
    file: u64,
    bytes: &[u8],
) -> Result<Option<(Snapshot, u64)>, LogFault>
    ensures slot { Answers result (slot_at file bytes.now) }
    ensures lawful { IfOk result (λ o. CouldStand o) }
    ensures fault { IfErr result IsSlotFault }
{
    let [gate, rest @ ..] = bytes else {
        return Ok(None);
    };
    if *gate != 1 || rest.len() < 12 {
        return Ok(None);
    }
    match opened_at(alloc, file, rest) {
        Ok(said) => Ok(Some(said)),
        Err(Fault::Bad { .. }) => Err(LogFault::Damaged { file, at: 0 }),
        Err(Fault::OutOfMemory) => Err(LogFault::OutOfMemory),
    }
}

#[tactic(auto, unfolding(crate::specs::Slots::opened_at))]
fn opened_at(alloc: Global, file: u64, bytes: &[u8]) -> Result<(Snapshot, u64), Fault>
    ensures read { Gives (λ x. x) result (opened_at file bytes.now) }
    ensures lawful { IfOk result (λ x. CanStand x.0 x.1) }
{
    let (generation, rest) = generation_at(file, bytes)?;
    let (body, _) = text32_at(0, MOST_OF_BODY, rest)?;
    let snapshot = read_snapshot(alloc, body)?;
    Ok((snapshot, generation))
}

#[tactic(auto, unfolding(crate::specs::Slots::generation_at))]
fn generation_at(file: u64, bytes: &[u8]) -> Result<(u64, &[u8]), Fault>
    ensures read { Gives (λ x. (x.0, x.1.now)) result (generation_at file bytes.now) }
    ensures first { IfOk result (λ x. 1 ≤ x.0) }
    ensures limit { IfOk result (λ x. x.0 ≤ most_number) }
{
    let (generation, rest) = number_from(1, bytes)?;
    if generation % 2 != file {
        return Err(Fault::Bad { left: bytes.len() });
    }
    Ok((generation, rest))
}

/// Of two slots the one that counts.
pub(crate) fn latest_of(
    a: Option<(Snapshot, u64)>,
    b: Option<(Snapshot, u64)>,
) -> Option<(Snapshot, u64)>
    ensures { latest (Ok a) (Ok b) ≡ Ok result }
{
    match (a, b) {
        (None, b) => b,
        (Some(x), None) => Some(x),
        (Some(x), Some(y)) => { if x.1 < y.1 { Some(y) } else { Some(x) } }
    }
}
