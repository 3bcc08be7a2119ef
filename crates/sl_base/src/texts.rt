//! The texts of diagnostics by their codes.

ghost use Rattle.std.specs.Prelude.{◌≡◌, ◌==◌, find, map};
ghost use Rattle.std.specs.Option.{option_copied};
ghost use Rattle.def_slang.specs.Diagnostic.{pieces_of};

use crate::code;

/// A code, and what stands before, between and behind its arguments.
type Text = (u16, &'static [&'static str]);

const TEXTS: [Text; 46] = [
    (code::FORM_NOT_BUILT, &["form not built yet"]),
    (code::UNEXPECTED_BYTE, &["unexpected byte ", ""]),
    (code::COMMENT_NOT_CLOSED, &["comment not closed"]),
    (code::BAD_NUMBER, &["bad number"]),
    (code::NAME_TOO_LONG, &["name too long"]),
    (code::STRING_NOT_CLOSED, &["string not closed"]),
    (code::UNEXPECTED_TOKEN, &["unexpected ", ""]),
    (code::NESTING_TOO_DEEP, &["nesting deeper than 64"]),
    (
        code::EXPRESSION_TOO_LONG,
        &["expression longer than 1024 tokens"],
    ),
    (code::DECLARED_TWICE, &["", " is declared twice"]),
    (code::NO_MODULE, &["no module ", ""]),
    (code::UNKNOWN_NAME, &["unknown name ", ""]),
    (code::NO_CONVERSION, &["cannot convert ", " to ", ""]),
    (code::NOT_A_TYPE, &["", " is not a type"]),
    (code::NOT_A_VALUE, &["", " is not a value"]),
    (code::NO_OVERLOAD, &["no overload of ", " fits"]),
    (
        code::AMBIGUOUS_CALL,
        &["call of ", " is ambiguous between ", " and ", ""],
    ),
    (
        code::IMPORTED_TWICE,
        &["", " is declared by more than one import"],
    ),
    (code::NOT_INFERRED, &["cannot infer ", ""]),
    (code::INFERRED_TWICE, &["", " would be ", " and ", ""]),
    (code::NOT_WRITABLE, &["not a place that can be written"]),
    (
        code::OPERATOR_NOT_TAKEN,
        &["operator ", " does not take ", ""],
    ),
    (code::NO_MEMBER, &["no member ", " in ", ""]),
    (code::NOT_CONSTANT, &["not a constant"]),
    (code::OUTSIDE_A_LOOP, &["break or continue outside a loop"]),
    (code::PATH_WITHOUT_RETURN, &["a path without return"]),
    (code::RETURN_DOES_NOT_FIT, &["return does not fit"]),
    (
        code::NOT_AN_ENTRY_POINT,
        &["not an entry point of this profile"],
    ),
    (code::TYPE_NOT_ALLOWED, &["type ", " is not allowed here"]),
    (code::OUT_OF_REACH, &["", " cannot be reached from here"]),
    (code::NO_CONFORMANCE, &["", " does not conform to ", ""]),
    (code::NO_WITNESS, &["", " has no ", " for ", ""]),
    (code::TWO_WITNESSES, &["", " has two ", " for ", ""]),
    (code::NOT_AN_INTERFACE, &["", " is not an interface"]),
    (
        code::WRONG_TYPE_ARGUMENTS,
        &["wrong number of type arguments for ", ""],
    ),
    (code::CONFORMS_TWICE, &["", " conforms to ", " twice"]),
    (
        code::TYPE_TOO_LARGE,
        &["type deeper than 12 or larger than 64"],
    ),
    (
        code::STRUCT_TOO_LARGE,
        &["struct larger than 1024 leaves or 64 levels"],
    ),
    (code::NO_ENTRY_POINT, &["no entry point ", " in ", ""]),
    (code::NO_TYPE, &["no type ", ""]),
    (
        code::WRONG_SPECIALIZATION,
        &["", " types are needed and ", " given"],
    ),
    (code::OPEN_TYPE_PARAMETERS, &["type parameters are open"]),
    (
        code::BINDING_TAKEN,
        &["binding ", " of set ", " is taken twice"],
    ),
    (code::CODE_TOO_LARGE, &["code larger than 65536 words"]),
    (code::NO_END, &["no end within ", " instructions"]),
    (
        code::WRONG_BUFFERS,
        &["buffers are not those of the layout"],
    ),
];

/// The pieces of a code's text, of which an unknown code has none.
pub fn pieces_of(code: u16) -> &'static [&'static str]
    ensures { map (λ piece. piece.now) result.now ≡ pieces_of code }
{
    let Some(text) = find_text(&TEXTS, code) else {
        return &[];
    };
    text.1
}

fn find_text(texts: &[Text], code: u16) -> Option<&Text>
    ensures { option_copied result ≡ find (λ text. text.0 == code) texts.now }
{
    texts.iter().find(|text| text.0 == code)
}
