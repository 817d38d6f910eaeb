//! What stands behind the gate of a record: a length and so many bytes.
ghost use Rattle.std.specs.Prelude.{◌≡◌, ◌++◌, ◌∷◌, [], ◌+◌, ◌<◌, ◌^◌, length, option_copied, None, Some, IfSome, IsNone, IfOk, IfErr, Err};
ghost use Rattle.std.specs.Int.{w32, to_be_bytes};
ghost use Rattle.bt_log.specs.Segment.{body_at};
ghost use Rattle.bt_gate.specs.declared.log_fault.LogFault.TheVariants as fault;
ghost use Rattle.bt_log.specs.Staged.{staged, IsRecordFault};

use bt_gate::LogFault;
use std::alloc::{AllocError, Global};
use std::marker::Model;

/// A record in memory, ready to be added to a log without any more memory. A contract sees its
/// body, the spelling of a batch.
#[derive(Debug, Drop)]
pub struct Record {
    // What stands behind the gate: the length of the body, the body, and a closed gate.
    bytes: Vec<u8>,
}

impl Model for Record {
    ghost use Rattle.std.specs.Prelude.{List, ℕ, ◌≡◌, ◌<◌, ◌^◌, length};
    ghost use Rattle.bt_log.specs.Staged.{staged, body_of};

    ghost Value = { List ℕ };

    ghost view = { λ r. body_of r.bytes.items };

    ghost invariant = { λ r. (r.bytes.items ≡ staged (body_of r.bytes.items)) × (length (body_of r.bytes.items) < 2 ^ 32) };
}

impl Record {
    /// A record with a copy of this body.
    ///
    /// It answers `TooLarge` exactly where the body has more than `limit` bytes, and else
    /// `OutOfMemory` where memory runs out.
    pub fn new(alloc: Global, body: &[u8], limit: u32) -> Result<Record, LogFault>
        ensures body { IfOk result (λ r. r ≡ body.now) }
        ensures large { limit < length body.now → result ≡ Err (fault.TooLarge (length body.now)) }
        ensures fault { IfErr result (IsRecordFault limit (length body.now)) }
    {
        if body.len() > limit as usize {
            let length = body.len() as u64;
            return Err(LogFault::TooLarge { length });
        }
        let bytes = staged(alloc, body)?;
        Ok(Record { bytes })
    }

    /// What stands behind the gate.
    pub(crate) fn bytes(&self) -> &[u8]
        ensures bytes { result.now ≡ staged self.now }
        ensures short { length self.now < 2 ^ 32 }
    {
        &self.bytes
    }
}

/// So many bytes as the length at the front says, and what stands behind them.
#[tactic(auto, unfolding(crate::specs::Segment::body_at))]
pub(crate) fn body_in(bytes: &[u8]) -> Option<(&[u8], &[u8])>
    ensures some { IfSome result (λ x. body_at bytes.now ≡ Some (x.0.now, x.1.now)) }
    ensures none { IsNone result → body_at bytes.now ≡ None }
    ensures parts { IfSome result (λ x. length x.0.now + length x.1.now + 4 ≡ length bytes.now) }
{
    if bytes.len() < 4 {
        return None;
    }
    let (front, rest) = bytes.split_at(4);
    let len = u32::from_be_bytes([front[0], front[1], front[2], front[3]]) as usize;
    if rest.len() < len {
        return None;
    }
    Some(rest.split_at(len))
}

/// The length of the body, the body, and a closed gate.
pub(crate) fn staged(alloc: Global, body: &[u8]) -> Result<Vec<u8>, AllocError>
    requires { length body.now < 2 ^ 32 }
    ensures { IfOk result (λ bytes. bytes.items ≡ staged body.now) }
{
    let mut bytes = Vec::with_capacity(alloc, body.len() + 5)?;
    bytes.extend_from_slice(&(body.len() as u32).to_be_bytes())?;
    bytes.extend_from_slice(body)?;
    bytes.push(0)?;
    Ok(bytes)
}
