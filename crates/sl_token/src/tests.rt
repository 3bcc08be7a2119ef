ghost use Rattle.std.specs.Prelude.{IfOk, length};
ghost use Rattle.std.specs.List.{All};
ghost use Rattle.sl_token.specs.View.{IsWithin};

use crate::{Kind, Number, NumberType, Tokens, is_keyword, lex, number_of, text_at};
use sl_base::{Bytes, Place, Refusal};
use std::process::Abort;
use std::test::Fail;

const MARKS: [&str; 42] = [
    "<<=", "::", "<<", "<=", "==", "!=", "&&", "||", "+=", "-=", "*=", "/=", "%=", "&=", "|=",
    "^=", "++", "--", "{", "}", "(", ")", "[", "]", ";", ",", ".", ":", "?", "<", ">", "=", "+",
    "-", "*", "/", "%", "&", "|", "^", "~", "!",
];

const KEYWORDS: [&str; 44] = [
    "module",
    "__exported",
    "import",
    "public",
    "internal",
    "private",
    "typealias",
    "static",
    "const",
    "struct",
    "interface",
    "extension",
    "where",
    "mutating",
    "override",
    "associatedtype",
    "in",
    "inout",
    "vk",
    "binding",
    "StructuredBuffer",
    "RWStructuredBuffer",
    "shader",
    "numthreads",
    "int",
    "uint",
    "int64_t",
    "uint64_t",
    "bool",
    "void",
    "uint3",
    "This",
    "return",
    "break",
    "continue",
    "if",
    "else",
    "while",
    "for",
    "let",
    "var",
    "true",
    "false",
    "this",
];

#[test]
fn an_expression_is_names_marks_and_numbers(rt: HostRuntime) -> Result<(), Fail> {
    let wanted = [
        (Kind::Name, "a", 1, 1),
        (Kind::Mark, ">", 1, 3),
        (Kind::Mark, "=", 1, 4),
        (Kind::Number, "1u", 1, 6),
        (Kind::End, "", 1, 13),
    ];
    expect_tokens(&rt, b"a >= 1u // x", &wanted)
}

#[test]
fn the_end_alone_is_the_empty_source(rt: HostRuntime) -> Result<(), Fail> {
    expect_tokens(&rt, b"", &[(Kind::End, "", 1, 1)])?;
    expect_tokens(&rt, b" \t\r\n", &[(Kind::End, "", 2, 1)])?;
    expect_tokens(&rt, b"\xef\xbb\xbf", &[(Kind::End, "", 1, 4)])
}

#[test]
fn each_mark_is_one_token(rt: HostRuntime) -> Result<(), Fail> {
    for mark in MARKS {
        expect_alone(&rt, mark.as_bytes(), Kind::Mark)?;
    }
    Ok(())
}

#[test]
fn the_longest_mark_comes_first(rt: HostRuntime) -> Result<(), Fail> {
    expect_texts(&rt, b">>=", &[">", ">", "="])?;
    expect_texts(&rt, b">==", &[">", "=="])?;
    expect_texts(&rt, b"<<<=", &["<<", "<="])?;
    expect_texts(&rt, b"<<=<", &["<<=", "<"])?;
    expect_texts(&rt, b"a+++b", &["a", "++", "+", "b"])?;
    expect_texts(&rt, b":::", &["::", ":"])?;
    expect_texts(&rt, b"x/=y/z", &["x", "/=", "y", "/", "z"])?;
    expect_texts(&rt, b"===!", &["==", "=", "!"])
}

#[test]
fn keywords_are_whole_words(rt: HostRuntime) -> Result<(), Fail> {
    for word in KEYWORDS {
        assert!(rt; is_keyword(word.as_bytes()), "{word}");
        expect_alone(&rt, word.as_bytes(), Kind::Keyword)?;
        let longer = format!(in rt.alloc(); "{word}x")?;
        expect_alone(&rt, longer.as_bytes(), Kind::Name)?;
    }
    expect_alone(&rt, b"Int", Kind::Name)?;
    expect_alone(&rt, b"_", Kind::Name)
}

#[test]
fn numbers_have_the_types_of_their_values_and_suffixes(rt: HostRuntime) -> Result<(), Fail> {
    let table = [
        ("0", NumberType::Int, 0),
        ("7", NumberType::Int, 7),
        ("2147483647", NumberType::Int, 2147483647),
        ("0u", NumberType::Uint, 0),
        ("2147483648u", NumberType::Uint, 2147483648),
        ("4294967295u", NumberType::Uint, 4294967295),
        ("4294967295U", NumberType::Uint, 4294967295),
        ("0x0", NumberType::Int, 0),
        ("0x00ff", NumberType::Int, 255),
        ("0x7FFFFFFF", NumberType::Int, 2147483647),
        ("0x80000000", NumberType::Uint, 2147483648),
        ("0xFFFFFFFF", NumberType::Uint, 4294967295),
        ("0xabcdefu", NumberType::Uint, 11259375),
        ("0x00000000000000000001", NumberType::Int, 1),
        ("1ll", NumberType::Int64, 1),
        (
            "9223372036854775807LL",
            NumberType::Int64,
            9223372036854775807,
        ),
        (
            "0x7FFFFFFFFFFFFFFFll",
            NumberType::Int64,
            9223372036854775807,
        ),
        ("0ull", NumberType::Uint64, 0),
        (
            "18446744073709551615ULL",
            NumberType::Uint64,
            18446744073709551615,
        ),
        (
            "0xFFFFFFFFFFFFFFFFull",
            NumberType::Uint64,
            18446744073709551615,
        ),
    ];
    for (word, number_type, value) in table {
        let wanted = Some(Number { number_type, value });
        assert_eq!(rt; number_of(word.as_bytes()), wanted, "{word}");
        expect_alone(&rt, word.as_bytes(), Kind::Number)?;
    }
    Ok(())
}

#[test]
fn other_words_that_begin_with_a_digit_are_bad_numbers(rt: HostRuntime) -> Result<(), Fail> {
    let table = [
        "2147483648",
        "4294967296u",
        "99999999999999999999",
        "0x100000000",
        "0x100000000u",
        "00",
        "01",
        "00u",
        "0x",
        "0xu",
        "0xg",
        "0X1",
        "1a",
        "1u2",
        "1uu",
        "1_0",
        "0x1_",
        "3u_",
        "1l",
        "1lL",
        "1uLL",
        "1llu",
        "01ll",
        "9223372036854775808ll",
        "0x8000000000000000ll",
        "18446744073709551616ull",
        "99999999999999999999999ull",
    ];
    for word in table {
        assert!(rt; number_of(word.as_bytes()).is_none(), "{word}");
        expect_fault(&rt, word.as_bytes(), (1, 1), 103, None)?;
    }
    Ok(())
}

#[test]
fn names_have_at_most_255_bytes(rt: HostRuntime) -> Result<(), Fail> {
    let mut name = Bytes::new(rt.alloc());
    for _ in 0..255 {
        name.push(b'n')?;
    }
    expect_alone(&rt, name.as_slice(), Kind::Name)?;
    name.push(b'n')?;
    expect_fault(&rt, name.as_slice(), (1, 1), 104, None)
}

#[test]
fn comments_are_skipped_with_all_their_bytes(rt: HostRuntime) -> Result<(), Fail> {
    expect_texts(&rt, b"a//\xc3\xa9\x00\"/*\nb", &["a", "b"])?;
    expect_texts(&rt, b"a/*\xff\n//\"*/b", &["a", "b"])?;
    expect_texts(&rt, b"a/**/b/***/c/* * / */d", &["a", "b", "c", "d"])?;
    expect_texts(&rt, b"/*/ a */b", &["b"])?;
    expect_texts(&rt, b"/* a */ */", &["*", "/"])
}

#[test]
fn open_comments_are_told_where_they_begin(rt: HostRuntime) -> Result<(), Fail> {
    expect_fault(&rt, b"a /* b", (1, 3), 102, None)?;
    expect_fault(&rt, b"\n /*/", (2, 2), 102, None)?;
    expect_fault(&rt, b"/**", (1, 1), 102, None)?;
    expect_fault(&rt, b"/* \" \n", (1, 1), 102, None)
}

#[test]
fn strings_are_closed_in_their_line(rt: HostRuntime) -> Result<(), Fail> {
    expect_texts(
        &rt,
        b"\"\" \"a\" \"//\" \"\xc3\xa9\\\"",
        &["\"\"", "\"a\"", "\"//\"", "\"\u{e9}\\\""],
    )?;
    expect_fault(&rt, b"\"a", (1, 1), 105, None)?;
    expect_fault(&rt, b"a \"b\nc\"", (1, 3), 105, None)?;
    expect_fault(&rt, b"a \"b\rc\"", (1, 3), 105, None)?;
    expect_fault(&rt, b"\"\"\"", (1, 3), 105, None)
}

#[test]
fn other_bytes_begin_nothing(rt: HostRuntime) -> Result<(), Fail> {
    let table = [
        (0x00, "00"),
        (0x01, "01"),
        (0x08, "08"),
        (0x0b, "0b"),
        (0x0c, "0c"),
        (0x1f, "1f"),
        (b'#', "23"),
        (b'$', "24"),
        (b'\'', "27"),
        (b'@', "40"),
        (b'\\', "5c"),
        (b'`', "60"),
        (0x7f, "7f"),
        (0x80, "80"),
        (0xaf, "af"),
        (0xef, "ef"),
        (0xff, "ff"),
    ];
    for (byte, digits) in table {
        expect_fault(
            &rt,
            &[b'a', b'\n', b' ', byte, b'b'],
            (2, 2),
            101,
            Some(digits),
        )?;
    }
    Ok(())
}

#[test]
fn lines_end_with_line_feeds_alone(rt: HostRuntime) -> Result<(), Fail> {
    let wanted = [
        (Kind::Name, "a", 1, 1),
        (Kind::Name, "b", 2, 1),
        (Kind::Name, "c", 2, 3),
        (Kind::Name, "d", 4, 2),
        (Kind::End, "", 4, 3),
    ];
    expect_tokens(&rt, b"a\r\nb\rc\n\n\td", &wanted)?;
    let wanted = [(Kind::Name, "a", 3, 4), (Kind::End, "", 3, 5)];
    expect_tokens(&rt, b"/*\n\n*/ a", &wanted)
}

#[test]
fn a_byte_order_mark_is_skipped_at_the_start_alone(rt: HostRuntime) -> Result<(), Fail> {
    let wanted = [(Kind::Name, "a", 1, 4), (Kind::End, "", 1, 5)];
    expect_tokens(&rt, b"\xef\xbb\xbfa", &wanted)?;
    expect_fault(&rt, b"a\xef\xbb\xbf", (1, 2), 101, Some("ef"))?;
    expect_fault(&rt, b"\xef\xbb\xbf\xef\xbb\xbf", (1, 4), 101, Some("ef"))?;
    expect_fault(&rt, b"\xef\xbba", (1, 1), 101, Some("ef"))
}

#[test]
fn the_first_fault_is_told(rt: HostRuntime) -> Result<(), Fail> {
    expect_fault(&rt, b"a 1b # \"", (1, 3), 103, None)?;
    expect_fault(&rt, b"a # 1b", (1, 3), 101, Some("23"))?;
    expect_fault(&rt, b"\"\n#", (1, 1), 105, None)
}

/// The tokens of a source, which is short.
fn tokens_of(rt: &(impl Abort + AllocGlobal), source: &[u8]) -> Result<Tokens, Refusal>
    ensures { IfOk result (All (λ token. IsWithin (length source.now) token.span)) }
{
    assert!(rt; source.len() < 1000);
    lex(rt.alloc(), source)
}

/// Compares kinds, texts, lines and columns of the tokens of a source.
fn expect_tokens(
    rt: &(impl Abort + AllocGlobal),
    source: &[u8],
    wanted: &[(Kind, &str, u32, u32)],
) -> Result<(), Fail> {
    let tokens = tokens_of(rt, source)?;
    assert_eq!(rt; tokens.len(), wanted.len());
    for (token, (kind, text, line, column)) in tokens.as_slice().iter().zip(wanted) {
        assert_eq!(rt; token.kind, *kind, "{text}");
        assert_eq!(rt; text_at(source, token.span), text.as_bytes(), "{text}");
        assert_eq!(rt;
            token.place,
            Place {
                line: *line,
                column: *column
            },
            "{text}"
        );
    }
    Ok(())
}

/// Compares the texts of the tokens of a source, without its end.
fn expect_texts(
    rt: &(impl Abort + AllocGlobal),
    source: &[u8],
    wanted: &[&str],
) -> Result<(), Fail> {
    let tokens = tokens_of(rt, source)?;
    assert_eq!(rt; tokens.len(), wanted.len() + 1);
    for (token, text) in tokens.as_slice().iter().zip(wanted) {
        assert_eq!(rt; text_at(source, token.span), text.as_bytes(), "{text}");
    }
    Ok(())
}

/// Expects that a source is one token of a kind, and the end.
fn expect_alone(rt: &(impl Abort + AllocGlobal), source: &[u8], kind: Kind) -> Result<(), Fail> {
    let tokens = tokens_of(rt, source)?;
    assert_eq!(rt; tokens.len(), 2);
    let token = &tokens.as_slice()[0];
    assert_eq!(rt; token.kind, kind);
    assert_eq!(rt; text_at(source, token.span), source);
    assert_eq!(rt; token.place, Place { line: 1, column: 1 });
    assert_eq!(rt; tokens.as_slice()[1].kind, Kind::End);
    Ok(())
}

/// Compares place, code and argument of the fault of a source.
fn expect_fault(
    rt: &(impl Abort + AllocGlobal),
    source: &[u8],
    place: (u32, u32),
    code: u16,
    arg: Option<&str>,
) -> Result<(), Fail> {
    let Err(
        Refusal::Diag {
            at,
            code: told,
            args,
        },
    ) = tokens_of(rt, source)
    else {
        assert!(rt; false, "no fault");
        return Ok(());
    };
    assert_eq!(rt;
        at,
        Place {
            line: place.0,
            column: place.1
        }
    );
    assert_eq!(rt; told, code);
    match arg {
        None => assert!(rt; args.is_empty()),
        Some(arg) => {
            assert_eq!(rt; args.len(), 1);
            assert_eq!(rt; args.as_slice()[0].as_slice(), arg.as_bytes());
        }
    }
    Ok(())
}
