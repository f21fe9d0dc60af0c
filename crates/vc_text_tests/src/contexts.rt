//! Tests of `vc_context`: the texts of contexts.

use std::test::Fail;
use vc_context::{read_context, write_context};

// The canonical text of the context that the text spells, or none.
fn canonical(rt: &HostRuntime, text: &[u8]) -> Result<Option<String>, Fail> {
    let Ok(context) = read_context(text) else {
        return Ok(None);
    };
    let mut canonical = String::new(rt.alloc());
    write_context(&context, &mut canonical)?;
    Ok(Some(canonical))
}

#[test]
fn spellings_have_one_canonical_text(rt: HostRuntime) -> Result<(), Fail> {
    for (text, wanted) in [
        (
            "[ab]? x [x-z]* -> nmin",
            "lat<lan_char(ab), law_char(xyz)>, nmin",
        ),
        ("lal_char( ), b", "lal_char(), b"),
        ("lal_char(ba),b", "lal_char(ab), b"),
        ("lal<char(a-c)> -> z", "lal_char(abc), z"),
        (" letterset < char_letters ( aa ) > , q ", "lal_char(a), q"),
        ("lan<char(\\-\\\\)>->f2", "lan_char(\\-\\\\), f2"),
        (
            "nullableset<letterset<char_letters(b)>>, b",
            "lan_char(b), b",
        ),
        ("nullableset<lal<char(b)>>, b", "lan_char(b), b"),
        (
            "law<char(\\!-\\/_)>, nmin",
            "law_char(\\!\\\"\\#\\$\\%\\&\\'\\(\\)\\*\\+\\,\\-\\.\\/_), nmin",
        ),
        ("wordset<char_letters(0-2)>,\tz", "law_char(012), z"),
        (
            "tupleset<[a],[b]?,[c]*>, b",
            "lat<lal_char(a), lan_char(b), law_char(c)>, b",
        ),
        (
            "lat<lal_char(a), lan_char(b), law_char(c), [d]>, b",
            "lat<lal_char(a), lan_char(b), law_char(c), lal_char(d)>, b",
        ),
        (
            "[a]\tx [b] x\t[c]  x  [d], q",
            "lat<lal_char(a), lal_char(b), lal_char(c), lal_char(d)>, q",
        ),
        ("[ x-z ] * , z", "law_char(xyz), z"),
    ] {
        let found = canonical(&rt, text.as_bytes())?.ok_or(text)?;
        assert_eq!(rt; found.as_str(), wanted);
        let again = canonical(&rt, found.as_bytes())?.ok_or(text)?;
        assert_eq!(rt; again.as_str(), wanted);
    }
    Ok(())
}

#[test]
fn other_texts_are_refused(rt: HostRuntime) -> Result<(), Fail> {
    for text in [
        "",
        "lal_char(ab)",
        "lal_char(ab) b",
        "lal_char(ab), ",
        "lal_char(ab), bb",
        "lal_char(ab), b, b",
        "lal_char(a b), b",
        "lal_char(a-), b",
        "lal_char(b-a), b",
        "lal_char(-), b",
        "lal_char(\\a), b",
        "lal_ char(a), b",
        "lal (a), b",
        "lal<char(a)>, - > b",
        "letterset<char(a)>, b",
        "nullableset<[a]>, b",
        "nullableset<lan_char(a)>, b",
        "lat<lal_char(a)>, b",
        "lat<[a] x [b]>, b",
        "lat<[a],[b],[c],[d],[e]>, b",
        "[a] x [b] x [c] x [d] x [e], b",
        "[a]x[b], b",
        "[a] x[b], b",
        "[a] x lal_char(b), b",
        "[a]+, b",
    ] {
        assert!(rt; canonical(&rt, text.as_bytes())?.is_none());
    }
    Ok(())
}
