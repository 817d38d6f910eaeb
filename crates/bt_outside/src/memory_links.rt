//! Links in memory.
ghost use Rattle.std.specs.Prelude.{◌≡◌, ◌≢◌, ◌↔◌, ℕ, ◌+◌, ◌-◌, ◌<◌, ◌≤◌, ◌++◌, [], ◌∷◌, List, Option, Some, None, Bool, length, take, drop, map, min, get_or, if◌then◌else◌, IsTrue, IsErr, IsSome, Contains, IsPermutation, OnOk, OnErr, IfOk};
ghost use Rattle.bt_base.specs.Counts.{counted, Counts};
ghost use Rattle.bt_outside.specs.Links.{Sent, fresh, joined, rest_of, Seen, IsOpen, Adds, AddsPart, Marks, LastGoes, WentOn};

use crate::failing_calls::FailingCalls;
use crate::kept::Kept;
use crate::{Disk, LinkFailed, Links, PieceLists};
use bt_base::{Blob, OutOfMemory};
use std::alloc::{AllocError, Global};
use std::marker::Model;

/// Connections that were given as lists of pieces, served one after another. A read answers at most
/// the rest of a piece. Each call of `next`, `read` and `write` has a number, from 1 in the order
/// in which they are made. A call fails where its number was given to `fail_calls`, or where it
/// finds no memory for what it has to keep. A failed write has written nothing.
#[derive(Drop)]
pub struct MemoryLinks {
    alloc: Global,
    connections: PieceLists,
    next: usize,
    is_open: bool,
    current: usize,
    piece: usize,
    at: usize,
    sent: Vec<Kept>,
    noted: Option<u64>,
    fails: FailingCalls,
    calls: u64,
    faults: u64,
    next_faults: u64,
}

impl Model for MemoryLinks {
    ghost Value = { Seen };

    ghost view = { λ m. record {
      left = map joined (drop m.next m.connections);
      at_hand = if m.is_open then Some (rest_of (get_or m.connections m.current []) m.piece m.at) else None;
      sent = m.sent.items;
      noted = m.noted;
      faults = m.faults;
      next_faults = m.next_faults;
      fails = m.fails;
      calls = m.calls;
    } };

    ghost invariant = { λ m. IsOpen m.is_open m.sent.items };
}

// Copies bytes from that place on.
fn copy_part(from: &[u8], at: usize, into: &mut [u8]) -> usize
    requires { at ≤ length from.now }
    ensures count { result ≡ min (length from.now - at) (length into.old) }
    ensures bytes { take result into.new ≡ take result (drop at from.now) }
{
    let n = (from.len() - at).min(into.len());
    into[..n].copy_from_slice(&from[at..at + n]);
    n
}

// Takes some bytes from that place on.
fn take_some(pieces: &[Blob], piece: &mut usize, at: &mut usize, into: &mut [u8]) -> usize
    requires { 0 < length into.old }
    ensures count { result ≤ length into.old }
    ensures bytes { rest_of pieces.now piece.old at.old ≡ take result into.new ++ rest_of pieces.now piece.new at.new }
    ensures end { result ≡ 0 → rest_of pieces.now piece.old at.old ≡ [] }
{
    while *piece < pieces.len() && pieces[*piece].bytes().len() <= *at {
        *at -= pieces[*piece].bytes().len();
        *piece += 1;
    }
    if *piece >= pieces.len() {
        return 0;
    }
    let n = copy_part(pieces[*piece].bytes(), *at, into);
    *at += n;
    n
}

fn mark_last(sent: &mut Vec<Kept>)
    requires { sent.old.items ≢ [] }
    ensures goes { LastGoes Marks sent.old.items sent.new.items }
    ensures some { sent.new.items ≢ [] }
{
    let last = sent.len() - 1;
    sent[last].mark();
}

fn add_to_last(sent: &mut Vec<Kept>, bytes: &[u8], moment: u64) -> Result<(), AllocError>
    requires { sent.old.items ≢ [] }
    ensures ok { OnOk result (LastGoes (Adds bytes.now moment) sent.old.items sent.new.items) }
    ensures err { OnErr result (LastGoes Marks sent.old.items sent.new.items) }
    ensures some { sent.new.items ≢ [] }
{
    let last = sent.len() - 1;
    sent[last].add(bytes, moment)
}

// Counts a call, and answers whether it is to fail.
fn is_failing(calls: &mut u64, fails: &FailingCalls) -> bool
    ensures calls { calls.new ≡ counted calls.old }
    ensures result { IsTrue result ↔ Contains fails.now calls.new }
{
    *calls = calls.saturating_add(1);
    fails.has(*calls)
}

impl MemoryLinks {
    /// Links that have served nothing yet. The pieces are not copied. A piece may be empty.
    pub fn new(alloc: Global, connections: PieceLists) -> MemoryLinks
        ensures { result ≡ record { left = map joined connections; at_hand = None; sent = []; noted = None; faults = 0; next_faults = 0; fails = []; calls = 0 } }
    {
        MemoryLinks {
            alloc,
            connections,
            next: 0,
            is_open: false,
            current: 0,
            piece: 0,
            at: 0,
            sent: Vec::new(alloc),
            noted: None,
            fails: FailingCalls::new(alloc),
            calls: 0,
            faults: 0,
            next_faults: 0,
        }
    }

    /// Lets the calls of these numbers fail, beside those that were given before.
    /// Where there is no memory for the numbers, nothing has changed.
    pub fn fail_calls(&mut self, numbers: &[u64]) -> Result<(), OutOfMemory>
        ensures ok { OnOk result (IsPermutation (self.old.fails ++ numbers.now) self.new.fails) }
        ensures others { self.new ≡ record self.old { fails = self.new.fails } }
        ensures err { OnErr result (self.new ≡ self.old) }
    {
        self.fails.add(numbers)
    }

    /// What was written to that connection, counted from 0 in the order in which `next` gave them.
    /// It is empty for any other number.
    pub fn written(&self, connection: u32) -> &[u8]
        ensures { result.now ≡ (get_or self.now.sent connection fresh).bytes }
    {
        match self.sent.get(connection as usize) {
            Some(kept) => kept.bytes(),
            None => &[],
        }
    }

    /// Whether a read or a write of that connection failed, counted as in `written`.
    /// False for any other number.
    pub fn failed(&self, connection: u32) -> bool
        ensures { result ≡ (get_or self.now.sent connection fresh).failed }
    {
        match self.sent.get(connection as usize) {
            Some(kept) => kept.is_failed(),
            None => false,
        }
    }
}

// The clauses of a method stand in place of the trait's, which they repeat for these links:
// `planned` and `plan` are their own.
impl<D: Disk> Links<D> for MemoryLinks {
    ghost tells = { Unit {0} };

    ghost left = { λ m. m.left };

    ghost at_hand = { λ m. m.at_hand };

    ghost sent = { λ m. m.sent };

    ghost noted = { λ m. m.noted };

    ghost faults = { λ m. m.faults };

    ghost next_faults = { λ m. m.next_faults };

    fn next(&mut self) -> Result<bool, LinkFailed>
        ensures ok { IfOk result (λ more. WentOn more self.old.left self.new.left self.new.at_hand self.old.sent self.new.sent) }
        ensures err { OnErr result ((self.new.left ≡ self.old.left) × (self.new.at_hand ≡ None) × (self.new.sent ≡ self.old.sent)) }
        ensures faults { Counts self.old.faults self.new.faults result }
        ensures noted { self.new.noted ≡ self.old.noted }
        ensures next_faults { Counts self.old.next_faults self.new.next_faults result }
        ensures planned { Contains self.old.fails (counted self.old.calls) → IsErr result }
        ensures plan { (self.new.fails ≡ self.old.fails) × (self.new.calls ≡ counted self.old.calls) }
    {
        self.is_open = false;
        let fails = is_failing(&mut self.calls, &self.fails);
        if !fails && self.next >= self.connections.items().len() {
            return Ok(false);
        }
        if fails || self.sent.push(Kept::new(self.alloc)).is_err() {
            self.faults = self.faults.saturating_add(1);
            self.next_faults = self.next_faults.saturating_add(1);
            return Err(LinkFailed);
        }
        self.current = self.next;
        self.piece = 0;
        self.at = 0;
        self.next += 1;
        self.is_open = true;
        Ok(true)
    }

    fn read(&mut self, into: &mut [u8]) -> Result<usize, LinkFailed>
        requires at_hand { IsSome self.old.at_hand }
        requires room { 0 < length into.old }
        ensures count { IfOk result (λ n. n ≤ length into.old) }
        ensures bytes { IfOk result (λ n. (rest : List ℕ) × (self.old.at_hand ≡ Some (take n into.new ++ rest)) × (self.new.at_hand ≡ Some rest)) }
        ensures end { IfOk result (λ n. (n ≡ 0) ↔ (self.old.at_hand ≡ Some [])) }
        ensures err { OnErr result (self.new.at_hand ≡ self.old.at_hand) }
        ensures noted { self.new.noted ≡ self.old.noted }
        ensures left { self.new.left ≡ self.old.left }
        ensures sent { OnOk result (self.new.sent ≡ self.old.sent) }
        ensures mark { OnErr result (LastGoes Marks self.old.sent self.new.sent) }
        ensures faults { Counts self.old.faults self.new.faults result }
        ensures next_faults { self.new.next_faults ≡ self.old.next_faults }
        ensures planned { Contains self.old.fails (counted self.old.calls) → IsErr result }
        ensures plan { (self.new.fails ≡ self.old.fails) × (self.new.calls ≡ counted self.old.calls) }
    {
        if is_failing(&mut self.calls, &self.fails) {
            mark_last(&mut self.sent);
            self.faults = self.faults.saturating_add(1);
            return Err(LinkFailed);
        }
        match self.connections.items().get(self.current) {
            Some(list) => Ok(take_some(list.items(), &mut self.piece, &mut self.at, into)),
            None => Ok(0),
        }
    }

    fn write(&mut self, bytes: &[u8], disk: &D) -> Result<(), LinkFailed>
        requires { IsSome self.old.at_hand }
        ensures ok { OnOk result (LastGoes (Adds bytes.now (D.moment disk.now)) self.old.sent self.new.sent) }
        ensures err { OnErr result (LastGoes (AddsPart bytes.now (D.moment disk.now)) self.old.sent self.new.sent) }
        ensures noted { self.new.noted ≡ Some (D.moment disk.now) }
        ensures at_hand { self.new.at_hand ≡ self.old.at_hand }
        ensures left { self.new.left ≡ self.old.left }
        ensures faults { Counts self.old.faults self.new.faults result }
        ensures next_faults { self.new.next_faults ≡ self.old.next_faults }
        ensures planned { Contains self.old.fails (counted self.old.calls) → IsErr result }
        ensures plan { (self.new.fails ≡ self.old.fails) × (self.new.calls ≡ counted self.old.calls) }
    {
        let moment = disk.moment();
        self.noted = Some(moment);
        if is_failing(&mut self.calls, &self.fails) {
            mark_last(&mut self.sent);
            self.faults = self.faults.saturating_add(1);
            return Err(LinkFailed);
        }
        match add_to_last(&mut self.sent, bytes, moment) {
            Ok(()) => Ok(()),
            Err(_) => {
                self.faults = self.faults.saturating_add(1);
                Err(LinkFailed)
            }
        }
    }

    fn close(&mut self) {
        self.is_open = false;
    }
}
