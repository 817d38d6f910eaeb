//! Whether a batch fits in so many bytes. Nothing is written for it.
ghost use Rattle.std.specs.Prelude.{◌≡◌, ◌↔◌, ◌≤◌, ◌<◌, ◌-◌, ◌^◌, length, IsTrue};
ghost use Rattle.std.specs.List.{flat_map};
ghost use Rattle.bt_entry.specs.Spelling.{entry, family, mutation, numbered, rule, rule_or_none, spelling};

use crate::{Batch, Entry, Numbered};
use bt_rules::{Family, Rule};
use bt_types::Mutation;

/// Whether `write_batch` writes at most so many bytes for the batch. It takes no memory.
pub fn fits(batch: &Batch, limit: u32) -> bool
    ensures within { IsTrue result ↔ (length (spelling batch.now) ≤ limit) }
    ensures few { IsTrue result → length batch.now < 2 ^ 32 }
{
    // One byte more than the limit, so that what fits leaves one.
    let left = u64::from(limit) + 1;
    behind_all(left.saturating_sub(4), batch.items()) > 0
}

// What is left of so many bytes behind these entries.
fn behind_all(mut left: u64, batch: &[Numbered]) -> u64
    ensures { result ≡ left - length (flat_map numbered batch.now) }
{
    for numbered in batch {
        left = behind_entry(left.saturating_sub(8), &numbered.entry);
    }
    left
}

fn behind_entry(left: u64, e: &Entry) -> u64
    ensures { result ≡ left - length (entry e.now) }
{
    match e {
        Entry::Row { key, mutations, .. } => {
            let left = behind_text(left.saturating_sub(15), key.bytes());
            behind_mutations(left, mutations.items())
        }
        Entry::Create { name, families, .. } => {
            let left = behind_text(left.saturating_sub(13), name.bytes());
            behind_families(left, families.items())
        }
        Entry::Delete { .. } => left.saturating_sub(9),
        Entry::Alter { families, .. } => {
            behind_families(left.saturating_sub(11), families.items())
        }
        Entry::Stream { .. } => left.saturating_sub(17),
        Entry::Floor => left.saturating_sub(1),
    }
}

// Lengths and tags are counted by the callers.
fn behind_text(left: u64, text: &[u8]) -> u64
    ensures { result ≡ left - length text.now }
{
    left.saturating_sub(text.len() as u64)
}

fn behind_mutations(mut left: u64, mutations: &[Mutation]) -> u64
    ensures { result ≡ left - length (flat_map mutation mutations.now) }
{
    for mutation in mutations {
        left = behind_mutation(left, mutation);
    }
    left
}

fn behind_mutation(left: u64, m: &Mutation) -> u64
    ensures { result ≡ left - length (mutation m.now) }
{
    match m {
        Mutation::SetCell {
            family,
            qualifier,
            value,
            ..
        } => {
            let left = behind_text(left.saturating_sub(16), family.bytes());
            let left = behind_text(left, qualifier.bytes());
            behind_text(left, value.bytes())
        }
        Mutation::DeleteColumn {
            family,
            qualifier,
            ..
        } => {
            let left = behind_text(left.saturating_sub(20), family.bytes());
            behind_text(left, qualifier.bytes())
        }
        Mutation::DeleteFamily { family } => behind_text(left.saturating_sub(2), family.bytes()),
        Mutation::DeleteRow => left.saturating_sub(1),
    }
}

fn behind_families(mut left: u64, families: &[Family]) -> u64
    ensures { result ≡ left - length (flat_map family families.now) }
{
    for family in families {
        left = behind_text(left.saturating_sub(1), family.name.bytes());
        left = behind_rule_or_none(left, &family.rule);
    }
    left
}

fn behind_rule_or_none(left: u64, r: &Option<Rule>) -> u64
    ensures { result ≡ left - length (rule_or_none r.now) }
{
    match r {
        Some(r) => behind_rule(left, r),
        None => left.saturating_sub(1),
    }
}

#[cycle(behind_rule)]
fn behind_rule(left: u64, r: &Rule) -> u64
    ensures { result ≡ left - length (rule r.now) }
{
    match r {
        Rule::Versions(_) => left.saturating_sub(5),
        Rule::Age(_) => left.saturating_sub(9),
        Rule::Intersection(rules) => behind_rules(left.saturating_sub(2), rules.as_slice()),
        Rule::Union(rules) => behind_rules(left.saturating_sub(2), rules.as_slice()),
    }
}

#[cycle(behind_rule)]
fn behind_rules(mut left: u64, rules: &[Rule]) -> u64
    ensures { result ≡ left - length (flat_map rule rules.now) }
{
    for rule in rules {
        left = behind_rule(left, rule);
    }
    left
}
