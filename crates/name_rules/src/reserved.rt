//! Words that no generated name may be.
ghost use Rattle.std.specs.Prelude.{◌≡◌, bytes_eq};
ghost use Rattle.std.specs.List.{list_any};
ghost use Rattle.name_rules.specs.Reserved.{is_reserved, is_reserved_local};

/// The keywords of C (ISO/IEC 9899:1999, 6.4.1).
const KEYWORDS: [&[u8]; 37] = [
    b"auto",
    b"break",
    b"case",
    b"char",
    b"const",
    b"continue",
    b"default",
    b"do",
    b"double",
    b"else",
    b"enum",
    b"extern",
    b"float",
    b"for",
    b"goto",
    b"if",
    b"inline",
    b"int",
    b"long",
    b"register",
    b"restrict",
    b"return",
    b"short",
    b"signed",
    b"sizeof",
    b"static",
    b"struct",
    b"switch",
    b"typedef",
    b"union",
    b"unsigned",
    b"void",
    b"volatile",
    b"while",
    b"_Bool",
    b"_Complex",
    b"_Imaginary",
];

/// What the included headers and the error's macro give a meaning (7.16, 7.17, 7.18, 7.21).
const GIVEN_NAMES: [&[u8]; 13] = [
    b"bool",
    b"true",
    b"false",
    b"NULL",
    b"EINVAL",
    b"memset",
    b"size_t",
    b"ptrdiff_t",
    b"wchar_t",
    b"intptr_t",
    b"uintptr_t",
    b"intmax_t",
    b"uintmax_t",
];

/// The integer types of a width (7.18.1).
const SIZED_TYPES: [&[u8]; 24] = [
    b"int8_t",
    b"int16_t",
    b"int32_t",
    b"int64_t",
    b"uint8_t",
    b"uint16_t",
    b"uint32_t",
    b"uint64_t",
    b"int_least8_t",
    b"int_least16_t",
    b"int_least32_t",
    b"int_least64_t",
    b"uint_least8_t",
    b"uint_least16_t",
    b"uint_least32_t",
    b"uint_least64_t",
    b"int_fast8_t",
    b"int_fast16_t",
    b"int_fast32_t",
    b"int_fast64_t",
    b"uint_fast8_t",
    b"uint_fast16_t",
    b"uint_fast32_t",
    b"uint_fast64_t",
];

/// The parameters of pack and unpack functions.
const PARAMETERS: [&[u8]; 3] = [b"dst_p", b"src_p", b"size"];

/// The static functions of a generated source.
const HELPERS: [&[u8]; 16] = [
    b"pack_left_shift_u8",
    b"pack_left_shift_u16",
    b"pack_left_shift_u32",
    b"pack_left_shift_u64",
    b"pack_right_shift_u8",
    b"pack_right_shift_u16",
    b"pack_right_shift_u32",
    b"pack_right_shift_u64",
    b"unpack_left_shift_u8",
    b"unpack_left_shift_u16",
    b"unpack_left_shift_u32",
    b"unpack_left_shift_u64",
    b"unpack_right_shift_u8",
    b"unpack_right_shift_u16",
    b"unpack_right_shift_u32",
    b"unpack_right_shift_u64",
];

/// Whether no name at file scope or in a struct may be this one.
#[tactic(auto, unfolding(crate::specs::Reserved::keywords, crate::specs::Reserved::given_names, crate::specs::Reserved::sized_types))]
pub fn is_reserved(name: &[u8]) -> bool
    ensures { result ≡ is_reserved name.now }
{
    is_among(&KEYWORDS, name) || is_among(&GIVEN_NAMES, name) || is_among(&SIZED_TYPES, name)
}

/// Whether no local variable may be this one.
#[tactic(auto, unfolding(crate::specs::Reserved::parameter_names, crate::specs::Reserved::helper_names))]
pub fn is_reserved_local(name: &[u8]) -> bool
    ensures { result ≡ is_reserved_local name.now }
{
    is_reserved(name) || is_among(&PARAMETERS, name) || is_among(&HELPERS, name)
}

fn is_among(words: &[&[u8]], name: &[u8]) -> bool
    ensures { result ≡ list_any (λ w. bytes_eq name.now w.now) words.now }
{
    words.iter().any(|w| name == *w)
}
