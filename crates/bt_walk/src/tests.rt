//! The walk over one small message.
ghost use Rattle.std.specs.Prelude.{[], map};
ghost use Rattle.bt_walk.specs.Shapes.{seen};

use super::*;
use bt_json::{Scratch, read};
use std::alloc::Global;
use std::test::Fail;

// A message of members of each kind, which may have itself as a part.
#[derive(Drop)]
struct Sample {
    members: &'static [Member],
}

impl Schema for Sample {
    ghost table = { λ s. record { fields = λ _. map seen s.members.now; names = λ _. [] } };

    fn members(&self, _message: u8) -> &'static [Member] {
        self.members
    }

    fn names(&self, _list: u8) -> &'static str {
        ""
    }
}

macro_rules! member {
    ($name:literal, $original:literal, $many:ident, $shape:expr, $choice:literal, $support:ident) => {
        Member {
            name: Name($name, $original),
            many: Many::$many,
            shape: $shape,
            choice: $choice,
            support: Support::$support,
        }
    };
}

static MEMBERS: [Member; 9] = [
    member!("anyPart", "any_part", One, Shape::Of(0), 1, Full),
    member!("bothParts", "both_parts", List, Shape::Of(0), 0, Full),
    member!("count", "count", One, Shape::Int64, 1, Full),
    member!("flag", "flag", One, Shape::Bool, 1, Full),
    member!("kind", "kind", One, Shape::AnyEnum, 0, Full),
    member!("named", "named", Map, Shape::Of(0), 0, Full),
    member!(
        "rareThing",
        "rare_thing",
        One,
        Shape::Anything,
        0,
        UnlessNull
    ),
    member!("text", "text", One, Shape::Text, 0, Full),
    member!("wait", "wait", One, Shape::Duration, 0, Full),
];

fn told(alloc: Global, text: &str) -> Result<String, Fail> {
    let mut scratch = Scratch::new(alloc);
    let value = read(alloc, text, &mut scratch)?;
    let schema = Sample { members: &MEMBERS };
    let shape = Shape::Of(0);
    let found = faults(&schema, Many::One, shape, "it", &value);
    let unsupported = found.unsupported.unwrap_or("-");
    let bad = found.bad.unwrap_or("-");
    Ok(format!(in alloc; "{unsupported} {bad}")?)
}

#[test]
fn the_first_fault_is_told(rt: HostRuntime) -> Result<(), Fail> {
    for (text, want) in [
        (r#"{"anyPart":{},"count":null,"named":{"x":null}}"#, "- -"),
        (r#"[]"#, "- it"),
        (r#"{"any_part":{"count":1}}"#, "- -"),
        (r#"{"anyPart":{},"flag":false}"#, "- flag"),
        (r#"{"any_part":{},"flag":false,"count":0}"#, "- count"),
        (r#"{"count":"x","any_part":{}}"#, "- count"),
        (
            r#"{"bothParts":[{"text":1},{"rareThing":0}]}"#,
            "rareThing text",
        ),
        (r#"{"bothParts":[{},null],"text":1}"#, "- bothParts"),
        (r#"{"bothParts":[{"any_part":{"zoo":1}}],"zap":1}"#, "- zoo"),
        (
            r#"{"named":{"y":{"rare_thing":1},"x":5}}"#,
            "rareThing named",
        ),
        (r#"{"rareThing":null,"both_parts":5,"ball":1}"#, "- ball"),
        (r#"{"both_parts":5,"bowl":1}"#, "- bothParts"),
        (r#"{"kind":"ANY","wait":"-1.5s"}"#, "- -"),
        (r#"{"kind":2147483648,"wait":"1s"}"#, "- kind"),
        (r#"{"kind":-1,"wait":1}"#, "- wait"),
    ] {
        let told = told(rt.alloc(), text)?;
        assert_eq!(rt; told.as_str(), want, "at {text}");
    }
    Ok(())
}
