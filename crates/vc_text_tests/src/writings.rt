//! Tests of `vc_daut`: canonical texts.

use std::test::Fail;
use vc_atoms::{Letters, Words};
use vc_basic::{B, Z};
use vc_context::{AnyContext, AnyLabels, Weights, labels_have_tapes};
use vc_daut::{read_daut, write_daut};
use vc_label::Alphabet;

// The canonical text of the automaton that the file spells.
fn of_letters(rt: &HostRuntime, labels: Letters, file: &str) -> Result<String, Fail> {
    labels_have_tapes();
    let context = AnyContext {
        labels: AnyLabels::Letters(labels),
        weights: Weights::Z,
    };
    let aut = read_daut::<Letters, Z>(rt.alloc(), file.as_bytes(), labels)?;
    let mut text = String::new(rt.alloc());
    write_daut(rt.alloc(), &context, &aut, &mut text)?;
    Ok(text)
}

fn of_words(rt: &HostRuntime, labels: Words, file: &str) -> Result<String, Fail> {
    labels_have_tapes();
    let context = AnyContext {
        labels: AnyLabels::Words(labels),
        weights: Weights::B,
    };
    let aut = read_daut::<Words, B>(rt.alloc(), file.as_bytes(), labels)?;
    let mut text = String::new(rt.alloc());
    write_daut(rt.alloc(), &context, &aut, &mut text)?;
    Ok(text)
}

#[test]
fn letters_are_written(rt: HostRuntime) -> Result<(), Fail> {
    let labels = Letters::new(Alphabet::new().with(b'a').with(b'b').with(b'-'));
    for (file, wanted) in [
        (
            "context = lal_char(ab\\-), z\n$ -> \"start\"\n\"start\" -> \"start\" [ab] // stay\n\"start\" -> seen <2>b, b\nseen -> \"end\" [^]\n\"end\" -> $\r\n",
            "context = \"lal_char(\\-ab), z\"\n$ -> 2\n0 -> $\n1 -> 0 \\-, a, b\n2 -> 1 <3>b\n2 -> 2 a, b\n",
        ),
        (
            "context = [ab\\-], z\n",
            "context = \"lal_char(\\-ab), z\"\n",
        ),
        (
            "context = lal_char(ab\\-), z\n2 -> 0 a\n0 -> $ <-3>\n$ -> 1 <2>\n3\n1 -> 1 <0>a\n0 -> 5 b\n4 -> $ <0>",
            "context = \"lal_char(\\-ab), z\"\n$ -> 1 <2>\n0 -> 5 b\n0 -> $ <-3>\n2 -> 0 a\n3\n4\n",
        ),
    ] {
        let text = of_letters(&rt, labels, file)?;
        assert_eq!(rt; text.as_str(), wanted);
        let again = of_letters(&rt, labels, text.as_str())?;
        assert_eq!(rt; again.as_str(), wanted);
    }
    Ok(())
}

#[test]
fn words_are_written(rt: HostRuntime) -> Result<(), Fail> {
    let labels = Words::new(Alphabet::new().with(b'a').with(b'\''));
    let text = of_words(
        &rt,
        labels,
        "context = law_char(a\\'), b\n$ -> 0\n0 -> 1 \\e, 'a\\'a', a\n1 -> $ <1>",
    )?;
    let wanted = "context = \"law_char(\\'a), b\"\n$ -> 0\n0 -> 1 \\e, a, a\\'a\n1 -> $\n";
    assert_eq!(rt; text.as_str(), wanted);
    let again = of_words(&rt, labels, text.as_str())?;
    assert_eq!(rt; again.as_str(), wanted);
    Ok(())
}
