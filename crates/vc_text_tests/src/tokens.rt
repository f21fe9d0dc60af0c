//! Tests of `vc_lex`: expressions and lines, cut into tokens.

use std::test::Fail;
use vc_lex::{BadByte, Lexer, Mode, TokenKind};

#[test]
fn expressions_are_cut_into_tokens(rt: HostRuntime) -> Result<(), Fail> {
    let mut lexer = Lexer::new(b"<2>a b", Mode::Expression);
    for (kind, at, text) in [
        (TokenKind::Weight, 0, b"<2>".as_slice()),
        (TokenKind::Letter, 3, b"a".as_slice()),
        (TokenKind::Letter, 5, b"b".as_slice()),
    ] {
        let token = lexer.next().ok_or("no token")?.ok().ok_or("a bad byte")?;
        assert_eq!(rt; token.kind, kind);
        assert_eq!(rt; token.at, at);
        assert_eq!(rt; token.text, text);
    }
    assert!(rt; lexer.next().is_none());
    Ok(())
}

#[test]
fn a_bad_byte_is_the_last_answer(rt: HostRuntime) -> Result<(), Fail> {
    let mut lexer = Lexer::new(b"a%", Mode::Expression);
    let token = lexer.next().ok_or("no token")?.ok().ok_or("a bad byte")?;
    assert_eq!(rt; token.kind, TokenKind::Letter);
    assert_eq!(rt; token.at, 0);
    assert_eq!(rt;
        lexer.next().ok_or("no answer")?.err(),
        Some(BadByte { at: 1 })
    );
    assert!(rt; lexer.next().is_none());
    Ok(())
}

#[test]
fn lines_are_cut_into_tokens(rt: HostRuntime) -> Result<(), Fail> {
    let mut lexer = Lexer::new(b"a\\+ -> \"\\\"\" [^a-c]// %", Mode::Line);
    for (kind, at, text) in [
        (TokenKind::Run, 0, b"a\\+".as_slice()),
        (TokenKind::Arrow, 4, b"->".as_slice()),
        (TokenKind::Name, 7, b"\"\\\"\"".as_slice()),
        (TokenKind::Class, 12, b"[^a-c]".as_slice()),
    ] {
        let token = lexer.next().ok_or("no token")?.ok().ok_or("a bad byte")?;
        assert_eq!(rt; token.kind, kind);
        assert_eq!(rt; token.at, at);
        assert_eq!(rt; token.text, text);
    }
    assert!(rt; lexer.next().is_none());
    Ok(())
}
