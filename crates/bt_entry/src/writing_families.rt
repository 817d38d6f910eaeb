//! The families of a table and their rules, written at the end of the bytes.
ghost use Rattle.std.specs.Prelude.{◌≡◌, ◌++◌, ◌≤◌, IsTrue, OnOk, map, sum};
ghost use Rattle.std.specs.Int.{w8, w16};
ghost use Rattle.bt_types.specs.Grammar.{is_family_name};
ghost use Rattle.bt_rules.specs.Rules.{all_of, count_of, is_lawful_or_none};
ghost use Rattle.bt_entry.specs.Grammar.{AreSpellableFamilies, AreWritableFamilies, RulesFit, rule_fits, rule_or_none_fits};
ghost use Rattle.bt_codec.specs.Spelling.{list};
ghost use Rattle.bt_entry.specs.Spelling.{family, rule, rule_or_none};

use crate::writing_fields::put_family_name;
use bt_codec::{put_u16, put_u32, put_u64};
use bt_rules::{Families, Family, Rule};
use std::alloc::AllocError;

/// A count, and so many families.
pub fn put_families(out: &mut Vec<u8>, families: &Families) -> Result<(), AllocError>
    requires { AreWritableFamilies families.now }
    ensures spelled { OnOk result (out.new.items ≡ out.old.items ++ list w16 family families.now) }
    ensures spellable { OnOk result (AreSpellableFamilies families.now) }
    ensures fits { OnOk result (RulesFit families.now) }
{
    let families = families.items();
    put_u16(out, families.len() as u16)?;
    for family in families {
        put_family(out, family)?;
    }
    Ok(())
}

fn put_family(out: &mut Vec<u8>, f: &Family) -> Result<(), AllocError>
    requires { IsTrue (is_lawful_or_none f.now.rule) }
    ensures spelled { OnOk result (out.new.items ≡ out.old.items ++ family f.now) }
    ensures lawful { OnOk result (IsTrue (is_family_name f.now.name)) }
    ensures fits { OnOk result (IsTrue (rule_or_none_fits f.now.rule)) }
{
    put_family_name(out, &f.name)?;
    put_rule_or_none(out, &f.rule)
}

fn put_rule_or_none(out: &mut Vec<u8>, r: &Option<Rule>) -> Result<(), AllocError>
    requires { IsTrue (is_lawful_or_none r.now) }
    ensures spelled { OnOk result (out.new.items ≡ out.old.items ++ rule_or_none r.now) }
    ensures fits { OnOk result (IsTrue (rule_or_none_fits r.now)) }
{
    match r {
        Some(r) => put_rule(out, r),
        None => {
            out.push(0)?;
            Ok(())
        }
    }
}

#[cycle(put_rule)]
fn put_rule(out: &mut Vec<u8>, r: &Rule) -> Result<(), AllocError>
    requires { count_of r.now ≤ 32 }
    ensures spelled { OnOk result (out.new.items ≡ out.old.items ++ rule r.now) }
    ensures fits { OnOk result (IsTrue (rule_fits r.now)) }
{
    match r {
        Rule::Versions(count) => {
            out.push(1)?;
            put_u32(out, *count)
        }
        Rule::Age(age) => {
            out.push(2)?;
            put_u64(out, *age)
        }
        Rule::Intersection(rules) => {
            out.push(3)?;
            put_rules(out, rules.as_slice())?;
            Ok(())
        }
        Rule::Union(rules) => {
            out.push(4)?;
            put_rules(out, rules.as_slice())?;
            Ok(())
        }
    }
}

#[cycle(put_rule)]
fn put_rules(out: &mut Vec<u8>, rules: &[Rule]) -> Result<(), AllocError>
    requires { sum (map count_of rules.now) ≤ 31 }
    ensures spelled { OnOk result (out.new.items ≡ out.old.items ++ list w8 rule rules.now) }
    ensures fits { OnOk result (IsTrue (all_of (map rule_fits rules.now))) }
{
    out.push(rules.len() as u8)?;
    for rule in rules {
        put_rule(out, rule)?;
    }
    Ok(())
}
