//! The bytes of a connection that were read, from the line at hand on.
ghost use Rattle.std.specs.Prelude.{◌≡◌, ◌↔◌, ◌<◌, ◌≤◌, ◌+◌, ◌-◌, ℕ, List, [], None, ◌++◌, length, drop, take, replicate, slice_range, vec_len, vec_capacity, IsTrue, IfOk, OnOk, OnErr, IsSome, Some};
ghost use Rattle.std.specs.List.{position};
ghost use Rattle.bt_base.specs.Counts.{Counts};
ghost use Rattle.bt_outside.specs.Links.{LastGoes, Marks};
ghost use Rattle.bt_top.specs.Lines.{is_lf};
ghost use Rattle.bt_top.specs.Steps.{Buffered};

use bt_base::OutOfMemory;
use bt_outside::{Disk, LinkFailed, Links};
use memchr::memchr;
use std::alloc::Global;
use std::marker::Model;

// So many bytes are made ready at a time.
const BLOCK: usize = 1 << 18;

/// Room for one line and its LF, reserved once, and written to only as far as lines came. What was
/// searched for a line's end is not searched again.
#[derive(Drop)]
pub struct LineBuffer {
    bytes: Vec<u8>,
    most: usize,
    start: usize,
    filled: usize,
    searched: usize,
}

impl Model for LineBuffer {
    ghost Value = { Buffered };

    ghost view = { λ b. record { text = slice_range b.bytes.items b.start b.filled; most = b.most; room = b.most + 1 - b.filled; ready = length b.bytes.items - b.filled } };

    ghost invariant = { λ b. (b.start ≤ b.filled) × (b.filled ≤ length b.bytes.items) × (length b.bytes.items ≤ b.most + 1) × (b.most < vec_capacity b.bytes)
        × (b.start + b.searched ≤ b.filled) × (position is_lf (take b.searched (slice_range b.bytes.items b.start b.filled)) ≡ None) };
}

fn lf_of(text: &[u8]) -> Option<usize>
    ensures { result ≡ position is_lf text.now }
{
    memchr(b'\n', text)
}

// The room is there, so that this takes no memory.
fn lengthen(bytes: &mut Vec<u8>, count: usize)
    requires { vec_len bytes.old + count ≤ vec_capacity bytes.old }
    ensures items { bytes.new.items ≡ bytes.old.items ++ replicate count 0 }
    ensures capacity { vec_capacity bytes.old ≤ vec_capacity bytes.new }
{
    if bytes.resize(bytes.len() + count, 0).is_err() {
        unreachable!();
    }
}

// Reads some bytes to that place.
fn read_at<D: Disk, L: Links<D>>(
    links: &mut L,
    bytes: &mut [u8],
    at: usize,
    count: usize,
) -> Result<usize, LinkFailed>
    requires at_hand { L.tells → IsSome (L.at_hand links.old) }
    requires within { at + count ≤ length bytes.old }
    requires some { 0 < count }
    ensures count { IfOk result (λ n. n ≤ count) }
    ensures length { length bytes.new ≡ length bytes.old }
    ensures front { take at bytes.new ≡ take at bytes.old }
    ensures bytes { L.tells → IfOk result (λ n. (got : List ℕ) × (rest : List ℕ) × (L.at_hand links.old ≡ Some (got ++ rest)) × (L.at_hand links.new ≡ Some rest) × (length got ≡ n) × (take (at + n) bytes.new ≡ take at bytes.old ++ got)) }
    ensures end { L.tells → IfOk result (λ n. (n ≡ 0) ↔ (L.at_hand links.old ≡ Some [])) }
    ensures left { L.tells → L.left links.new ≡ L.left links.old }
    ensures sent { L.tells → OnOk result (L.sent links.new ≡ L.sent links.old) }
    ensures mark { L.tells → OnErr result (LastGoes Marks (L.sent links.old) (L.sent links.new)) }
    ensures faults { Counts (L.faults links.old) (L.faults links.new) result }
    ensures next_faults { L.next_faults links.new ≡ L.next_faults links.old }
{
    links.read(&mut bytes[at..at + count])
}

impl LineBuffer {
    /// A buffer for lines of at most that length.
    pub fn new(alloc: Global, line: u32) -> Result<LineBuffer, OutOfMemory>
        ensures text { IfOk result (λ b. b.text ≡ []) }
        ensures most { IfOk result (λ b. b.most ≡ line) }
    {
        let most = line as usize;
        let bytes = Vec::with_capacity(alloc, most + 1)?;
        Ok(LineBuffer {
            bytes,
            most,
            start: 0,
            filled: 0,
            searched: 0,
        })
    }

    pub fn clear(&mut self)
        ensures text { self.new.text ≡ [] }
        ensures most { self.new.most ≡ self.old.most }
    {
        self.start = 0;
        self.filled = 0;
        self.searched = 0;
    }

    pub fn text(&self) -> &[u8]
        ensures text { result.now ≡ self.now.text }
        ensures within { length self.now.text ≤ self.now.most + 1 }
    {
        &self.bytes[self.start..self.filled]
    }

    pub fn is_full(&self) -> bool
        ensures { IsTrue result ↔ (self.now.most < length self.now.text) }
    {
        self.filled - self.start > self.most
    }

    /// The place of the first LF.
    pub fn line_end(&mut self) -> Option<usize>
        ensures place { result ≡ position is_lf self.old.text }
        ensures same { self.new ≡ self.old }
    {
        let from = self.start + self.searched;
        match lf_of(&self.bytes[from..self.filled]) {
            Some(at) => Some(self.searched + at),
            None => {
                self.searched = self.filled - self.start;
                None
            }
        }
    }

    /// Drops so many bytes at the front.
    pub fn skip(&mut self, count: usize)
        requires { count ≤ length self.old.text }
        ensures text { self.new.text ≡ drop count self.old.text }
        ensures most { self.new.most ≡ self.old.most }
    {
        self.start += count;
        self.searched = 0;
    }

    // Moves the bytes to the front.
    fn settle(&mut self)
        ensures text { self.new.text ≡ self.old.text }
        ensures most { self.new.most ≡ self.old.most }
        ensures room { self.new.room + length self.new.text ≡ self.new.most + 1 }
    {
        if self.start == 0 {
            return;
        }
        let (start, filled) = (self.start, self.filled);
        self.bytes.copy_within(start..filled, 0);
        self.start = 0;
        self.filled = filled - start;
    }

    // Settles the buffer, and makes more of its room ready where none is.
    fn make_ready(&mut self)
        requires room { length self.old.text ≤ self.old.most }
        ensures text { self.new.text ≡ self.old.text }
        ensures most { self.new.most ≡ self.old.most }
        ensures ready { 0 < self.new.ready }
    {
        self.settle();
        if self.filled < self.bytes.len() {
            return;
        }
        let free = self.most + 1 - self.filled;
        lengthen(&mut self.bytes, free.min(BLOCK));
    }

    /// Reads some bytes of the connection at hand, at most so many; 0 at its end.
    pub fn fill<D: Disk, L: Links<D>>(
        &mut self,
        links: &mut L,
        limit: u64,
    ) -> Result<usize, LinkFailed>
        requires at_hand { L.tells → IsSome (L.at_hand links.old) }
        requires room { length self.old.text ≤ self.old.most }
        requires limit { 0 < limit }
        ensures count { IfOk result (λ n. n ≤ limit) }
        ensures bytes { L.tells → IfOk result (λ n. (got : List ℕ) × (rest : List ℕ) × (L.at_hand links.old ≡ Some (got ++ rest)) × (L.at_hand links.new ≡ Some rest) × (length got ≡ n) × (self.new.text ≡ self.old.text ++ got)) }
        ensures end { L.tells → IfOk result (λ n. n ≡ 0 ↔ (L.at_hand links.old ≡ Some [])) }
        ensures most { self.new.most ≡ self.old.most }
        ensures left { L.tells → L.left links.new ≡ L.left links.old }
        ensures sent { L.tells → OnOk result (L.sent links.new ≡ L.sent links.old) }
        ensures mark { L.tells → OnErr result (LastGoes Marks (L.sent links.old) (L.sent links.new)) }
        ensures faults { Counts (L.faults links.old) (L.faults links.new) result }
        ensures next_faults { L.next_faults links.new ≡ L.next_faults links.old }
    {
        self.make_ready();
        let filled = self.filled;
        let ready = (self.bytes.len() - filled) as u64;
        let count = ready.min(limit) as usize;
        let n = read_at::<D, L>(links, &mut self.bytes, filled, count)?;
        self.filled = filled + n;
        Ok(n)
    }
}
