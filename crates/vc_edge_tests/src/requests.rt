//! Tests of `vc_command`: words and their requests.

use std::alloc::{AllocError, Global};
use std::test::Fail;
use vc_command::{RequestFault, request_of};

// The words that stand between bars in the text.
fn words(alloc: Global, text: &str) -> Result<Vec<String>, AllocError> {
    let mut words = Vec::new(alloc);
    for word in text.split('|') {
        words.push(String::from_str(alloc, word)?)?;
    }
    Ok(words)
}

#[test]
fn words_give_their_request(rt: HostRuntime) -> Result<(), Fail> {
    let alloc = rt.alloc();
    for (text, asked) in [
        (
            "context|lal_char(ab), b",
            "Context { text: \"lal_char(ab), b\" }",
        ),
        ("expr|C|a+b", "Expr { context: \"C\", text: \"a+b\" }"),
        ("cat|words.daut", "Cat { file: \"words.daut\" }"),
        ("cat|-", "Cat { file: \"-\" }"),
        ("cat|--|--limit", "Cat { file: \"--limit\" }"),
        ("--|cat|--", "Cat { file: \"--\" }"),
        (
            "eval|words.daut|",
            "EvalFile { file: \"words.daut\", word: \"\" }",
        ),
        (
            "eval|C|a*|aab",
            "EvalExpr { context: \"C\", text: \"a*\", word: \"aab\" }",
        ),
        (
            "--limit|3|standard|C|a*",
            "Standard { context: \"C\", text: \"a*\", limit: 3 }",
        ),
        (
            "standard|C|--limit=3|a*",
            "Standard { context: \"C\", text: \"a*\", limit: 3 }",
        ),
        (
            "derived|C|a*",
            "Derived { context: \"C\", text: \"a*\", limit: 100000 }",
        ),
        ("proper|costs.daut", "Proper { file: \"costs.daut\" }"),
        ("trim|costs.daut", "Trim { file: \"costs.daut\" }"),
        (
            "conjunction|A|B|--limit=0001000000",
            "Conjunction { first: \"A\", second: \"B\", limit: 1000000 }",
        ),
        (
            "shuffle|A|B|--limit|1",
            "Shuffle { first: \"A\", second: \"B\", limit: 1 }",
        ),
        (
            "compose|A|B",
            "Compose { first: \"A\", second: \"B\", limit: 100000 }",
        ),
        (
            "determinize|values.daut|--limit|10",
            "Determinize { file: \"values.daut\", limit: 10 }",
        ),
        (
            "quotient|minimal.daut",
            "Quotient { file: \"minimal.daut\" }",
        ),
        (
            "to-expression|F",
            "ToExpression { file: \"F\", order: None }",
        ),
        (
            "to-expression|F|--order|1,0",
            "ToExpression { file: \"F\", order: Some([1, 0]) }",
        ),
        (
            "--order=004294967295|to-expression|F",
            "ToExpression { file: \"F\", order: Some([4294967295]) }",
        ),
        ("reduce|minimal.daut", "Reduce { file: \"minimal.daut\" }"),
        ("generate|0300", "Generate { n: 300 }"),
        ("generate|1000", "Generate { n: 1000 }"),
    ] {
        let request = request_of(alloc, &words(alloc, text)?).ok().ok_or(text)?;
        assert_eq!(rt; format!(in alloc; "{request:?}")?.as_str(), asked, "{text}");
    }
    Ok(())
}

#[test]
fn other_words_give_none(rt: HostRuntime) -> Result<(), Fail> {
    let alloc = rt.alloc();
    assert_eq!(rt; request_of(alloc, &[]), Err(RequestFault::Usage));
    for text in [
        "",
        "eval",
        "eval|words.daut",
        "eval|C|E|a|b",
        "cat",
        "cat|words.daut|costs.daut",
        "Cat|words.daut",
        "generate|0",
        "generate|1001",
        "generate|+3",
        "generate|",
        "generate|340282366920938463463374607431768211456",
        "cat|-words.daut",
        "cat|--help",
        "-h",
        "--version",
        "cat|words.daut|--limit|3",
        "to-expression|F|--limit|3",
        "standard|C|E|--order|1,0",
        "standard|C|E|--limits|3",
        "standard|C|E|--lim|3",
        "standard|C|E|--=3",
        "standard|C|E|--limit",
        "standard|C|E|--limit=",
        "standard|C|E|--limit|0",
        "standard|C|E|--limit|1000001",
        "standard|C|E|--limit|+3",
        "standard|C|E|--limit|-3",
        "standard|C|E|--limit|-",
        "standard|C|E|--limit=-",
        "standard|C|E|--limit|--",
        "standard|C|E|--limit|--|3",
        "standard|C|E|--limit|--limit=3",
        "standard|C|E|--limit|3|--limit|3",
        "standard|C|E|--limit=3|--limit=3",
        "standard|C|E|--|--limit|3",
        "to-expression|F|--order=",
        "to-expression|F|--order=1,",
        "to-expression|F|--order=1,,0",
        "to-expression|F|--order=1, 0",
        "to-expression|F|--order=4294967296",
    ] {
        let words = words(alloc, text)?;
        assert_eq!(rt;
            request_of(alloc, &words),
            Err(RequestFault::Usage),
            "{text}"
        );
    }
    Ok(())
}
