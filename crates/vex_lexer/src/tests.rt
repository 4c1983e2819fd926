//! A snippet that is cut into tokens, values of strings, and lines without a token.
use super::*;
use std::test::Fail;

#[test]
fn a_snippet_is_cut_into_tokens(rt: HostRuntime) -> Result<(), Fail> {
    let snippet = "@P.y = 1.5; // up\n/* \u{e9} */ s = 'a//\u{e9}';";
    let words = [
        "@P",
        ".",
        "y",
        "=",
        "1.5",
        ";",
        "s",
        "=",
        "'a//\u{e9}'",
        ";",
    ];
    let made = tokens(rt.alloc(), snippet).expect(&rt, "tokens");
    assert_eq!(rt; made.len(), 10);
    for (token, word) in made.iter().zip(words.iter()) {
        assert_eq!(rt; token.text.as_str(), *word);
    }
    assert_eq!(rt; made[6].line, 2);
    assert_eq!(rt; made[6].start, 27);
    assert_eq!(rt; made[6].end, 28);
    assert_eq!(rt; made[3].kind, TokenKind::Operator(Operator::Assign));
    assert_eq!(rt; made[4].kind, TokenKind::Real);
    assert_eq!(rt; kind_of("while"), Some(TokenKind::Keyword(Keyword::While)));
    one_spelling(snippet.as_bytes());
    each_word_is_found();
    Ok(())
}

#[test]
fn a_string_has_a_value(rt: HostRuntime) -> Result<(), Fail> {
    for (word, value) in [
        ("'a//\u{e9}'", Some("a//\u{e9}")),
        ("\"\\t\\n\\\\'\"", Some("\t\n\\'")),
        ("'a\"", None),
    ] {
        let made = string_value(rt.alloc(), word)?;
        assert!(rt; made.as_ref().map(|text| text.as_str()) == value);
    }
    Ok(())
}

#[test]
fn the_line_of_no_token_is_told(rt: HostRuntime) -> Result<(), Fail> {
    for (snippet, line) in [
        ("a = #;", 1),
        ("a;\r\n\n/* b\n", 3),
        ("a\n= \"b\nc\";", 2),
        ("'\\q'", 1),
    ] {
        assert!(rt; tokens(rt.alloc(), snippet).err() == Some(LexFault::NoToken(line)));
    }
    Ok(())
}
