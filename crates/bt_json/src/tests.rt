use super::*;
use std::test::Fail;

#[test]
fn strings_stand_in_the_text_or_in_the_scratch(rt: HostRuntime) -> Result<(), Fail> {
    let mut scratch = Scratch::new(rt.alloc());
    let value = read(
        rt.alloc(),
        r#"{"a":"plain","b":"tab\t\u00e9","a":"last"}"#,
        &mut scratch,
    )?;
    assert_eq!(rt; value.get("a").ok_or("a")?.as_str(), Some("last"));
    assert_eq!(rt; value.get("b").ok_or("b")?.as_str(), Some("tab\té"));
    Ok(())
}

#[test]
fn many_members_stand_by_their_names(rt: HostRuntime) -> Result<(), Fail> {
    let mut scratch = Scratch::new(rt.alloc());
    let value = read(
        rt.alloc(),
        r#"{"n39":0,"n38":1,"n37":2,"n36":3,"n35":4,"n34":5,"n33":6,"n32":7,"n31":8,"n30":9,"n29":10,"n28":11,"n27":12,"n26":13,"n25":14,"n24":15,"n23":16,"n22":17,"n21":18,"n20":19,"n19":20,"n18":21,"n17":22,"n16":23,"n15":24,"n14":25,"n13":26,"n12":27,"n11":28,"n10":29,"n09":30,"n08":31,"n07":32,"n06":33,"n05":34,"n04":35,"n03":36,"n02":37,"n01":38,"n00":39,"n20":true}"#,
        &mut scratch,
    )?;
    let members = value.as_object().ok_or("object")?;
    assert_eq!(rt; members.len(), 40);
    let (first, number) = members.first().ok_or("first")?;
    assert_eq!(rt; *first, "n00");
    assert_eq!(rt; number.as_u64(), Some(39));
    assert_eq!(rt; value.get("n20").ok_or("n20")?.as_bool(), Some(true));
    assert_eq!(rt; value.get("n39").ok_or("n39")?.as_u64(), Some(0));
    Ok(())
}
