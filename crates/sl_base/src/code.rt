//! The codes of diagnostics, each with its text, in which `_` stands for an argument.

/// `form not built yet`
pub const FORM_NOT_BUILT: u16 = 100;

/// `unexpected byte _`
pub const UNEXPECTED_BYTE: u16 = 101;

/// `comment not closed`
pub const COMMENT_NOT_CLOSED: u16 = 102;

/// `bad number`
pub const BAD_NUMBER: u16 = 103;

/// `name too long`
pub const NAME_TOO_LONG: u16 = 104;

/// `string not closed`
pub const STRING_NOT_CLOSED: u16 = 105;

/// `unexpected _`
pub const UNEXPECTED_TOKEN: u16 = 110;

/// `nesting deeper than 64`
pub const NESTING_TOO_DEEP: u16 = 111;

/// `expression longer than 1024 tokens`
pub const EXPRESSION_TOO_LONG: u16 = 112;

/// `_ is declared twice`
pub const DECLARED_TWICE: u16 = 120;

/// `no module _`
pub const NO_MODULE: u16 = 201;

/// `unknown name _`
pub const UNKNOWN_NAME: u16 = 301;

/// `cannot convert _ to _`
pub const NO_CONVERSION: u16 = 302;

/// `_ is not a type`
pub const NOT_A_TYPE: u16 = 303;

/// `_ is not a value`
pub const NOT_A_VALUE: u16 = 304;

/// `no overload of _ fits`
pub const NO_OVERLOAD: u16 = 305;

/// `call of _ is ambiguous between _ and _`
pub const AMBIGUOUS_CALL: u16 = 306;

/// `_ is declared by more than one import`
pub const IMPORTED_TWICE: u16 = 307;

/// `cannot infer _`
pub const NOT_INFERRED: u16 = 308;

/// `_ would be _ and _`
pub const INFERRED_TWICE: u16 = 309;

/// `not a place that can be written`
pub const NOT_WRITABLE: u16 = 310;

/// `operator _ does not take _`
pub const OPERATOR_NOT_TAKEN: u16 = 311;

/// `no member _ in _`
pub const NO_MEMBER: u16 = 312;

/// `not a constant`
pub const NOT_CONSTANT: u16 = 313;

/// `break or continue outside a loop`
pub const OUTSIDE_A_LOOP: u16 = 314;

/// `a path without return`
pub const PATH_WITHOUT_RETURN: u16 = 315;

/// `return does not fit`
pub const RETURN_DOES_NOT_FIT: u16 = 316;

/// `not an entry point of this profile`
pub const NOT_AN_ENTRY_POINT: u16 = 317;

/// `type _ is not allowed here`
pub const TYPE_NOT_ALLOWED: u16 = 318;

/// `_ cannot be reached from here`
pub const OUT_OF_REACH: u16 = 319;

/// `_ does not conform to _`
pub const NO_CONFORMANCE: u16 = 401;

/// `_ has no _ for _`
pub const NO_WITNESS: u16 = 402;

/// `_ has two _ for _`
pub const TWO_WITNESSES: u16 = 403;

/// `_ is not an interface`
pub const NOT_AN_INTERFACE: u16 = 404;

/// `wrong number of type arguments for _`
pub const WRONG_TYPE_ARGUMENTS: u16 = 405;

/// `_ conforms to _ twice`
pub const CONFORMS_TWICE: u16 = 406;

/// `type deeper than 12 or larger than 64`
pub const TYPE_TOO_LARGE: u16 = 501;

/// `struct larger than 1024 leaves or 64 levels`
pub const STRUCT_TOO_LARGE: u16 = 502;

/// `no entry point _ in _`
pub const NO_ENTRY_POINT: u16 = 601;

/// `no type _`
pub const NO_TYPE: u16 = 602;

/// `_ types are needed and _ given`
pub const WRONG_SPECIALIZATION: u16 = 603;

/// `type parameters are open`
pub const OPEN_TYPE_PARAMETERS: u16 = 604;

/// `binding _ of set _ is taken twice`
pub const BINDING_TAKEN: u16 = 605;

/// `code larger than 65536 words`
pub const CODE_TOO_LARGE: u16 = 606;

/// `no end within _ instructions`
pub const NO_END: u16 = 701;

/// `buffers are not those of the layout`
pub const WRONG_BUFFERS: u16 = 702;

/// `circular: _ -> _`, with each query of the circle and the first once more.
pub const CIRCULAR: u16 = 901;
