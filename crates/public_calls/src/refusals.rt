//! `can_model` and `c_mean`: numbers and names of refusals, and the words and marks of C.
use c_mean::{CKind, Keyword, Punctuator};
use can_model::{CheckKind, TextKind};

const TEXT_KINDS: &[(TextKind, u8, &str)] = &[
    (TextKind::BadByte, 1, "BadByte"),
    (TextKind::OpenString, 2, "OpenString"),
    (TextKind::BadNumber, 3, "BadNumber"),
    (TextKind::Unexpected, 4, "Unexpected"),
    (TextKind::TooLarge, 5, "TooLarge"),
    (TextKind::LateSignal, 6, "LateSignal"),
    (TextKind::FormatVersion, 7, "FormatVersion"),
    (TextKind::UnknownName, 8, "UnknownName"),
    (TextKind::SignalType, 9, "SignalType"),
    (TextKind::NotYet, 25, "NotYet"),
];

const CHECK_KINDS: &[(CheckKind, u8, &str)] = &[
    (CheckKind::DuplicateMessageName, 10, "DuplicateMessageName"),
    (CheckKind::DuplicateMessageId, 11, "DuplicateMessageId"),
    (CheckKind::DuplicateSignalName, 12, "DuplicateSignalName"),
    (CheckKind::FrameIdRange, 13, "FrameIdRange"),
    (CheckKind::MessageTooLong, 14, "MessageTooLong"),
    (CheckKind::SignalLength, 15, "SignalLength"),
    (CheckKind::SignalOutside, 16, "SignalOutside"),
    (CheckKind::Overlap, 17, "Overlap"),
    (CheckKind::MuxParentUnknown, 18, "MuxParentUnknown"),
    (CheckKind::MuxIdRange, 19, "MuxIdRange"),
    (CheckKind::FloatSignal, 20, "FloatSignal"),
    (CheckKind::ScaleTooWide, 21, "ScaleTooWide"),
    (CheckKind::TooMany, 22, "TooMany"),
    (CheckKind::ExtendedMultiplexing, 23, "ExtendedMultiplexing"),
    (CheckKind::MuxCycle, 24, "MuxCycle"),
];

#[test]
fn kinds_of_a_database(rt: HostRuntime) {
    for &(kind, number, name) in CHECK_KINDS {
        assert_eq!(rt; kind.number(), number, "of {name}");
        assert_eq!(rt; kind.name(), name);
    }
    for &(kind, number, name) in TEXT_KINDS {
        assert_eq!(rt; kind.number(), number, "of {name}");
        assert_eq!(rt; kind.name(), name);
    }
}

const TOKEN_KINDS: &[(CKind, u8, &str)] = &[
    (CKind::BadToken, 40, "BadToken"),
    (CKind::Splice, 41, "Splice"),
    (CKind::OpenComment, 42, "OpenComment"),
    (CKind::BadDirective, 43, "BadDirective"),
    (CKind::UnknownHeader, 44, "UnknownHeader"),
    (CKind::MacroBody, 45, "MacroBody"),
    (CKind::Redefined, 46, "Redefined"),
    (CKind::Unbalanced, 47, "Unbalanced"),
];

#[test]
fn kinds_of_tokens_and_directives(rt: HostRuntime) {
    for &(kind, number, name) in TOKEN_KINDS {
        assert_eq!(rt; kind.number(), number, "of {name}");
        assert_eq!(rt; kind.name(), name);
    }
}

const TREE_KINDS: &[(CKind, u8, &str)] = &[
    (CKind::Syntax, 48, "Syntax"),
    (CKind::TooDeep, 49, "TooDeep"),
    (CKind::UnknownName, 50, "UnknownName"),
    (CKind::TypeMismatch, 51, "TypeMismatch"),
    (CKind::ConstWrite, 52, "ConstWrite"),
    (CKind::Redeclared, 53, "Redeclared"),
    (CKind::ImpureCall, 54, "ImpureCall"),
    (CKind::DeepCall, 55, "DeepCall"),
    (CKind::DuplicateCase, 56, "DuplicateCase"),
    (CKind::ReservedName, 57, "ReservedName"),
];

#[test]
fn kinds_of_trees(rt: HostRuntime) {
    for &(kind, number, name) in TREE_KINDS {
        assert_eq!(rt; kind.number(), number, "of {name}");
        assert_eq!(rt; kind.name(), name);
    }
    let told = TextKind::BadNumber.message();
    assert_eq!(rt; told, "this number does not fit here");
    let told = CheckKind::Overlap.message();
    assert_eq!(rt; told, "this signal shares a place with an earlier one");
    let told = CKind::Syntax.message();
    assert_eq!(rt; told, "no form of C that is read fits here");
}

#[test]
fn words_and_marks(rt: HostRuntime) {
    assert_eq!(rt; Keyword::of(b"int"), Some(Keyword::Int));
    assert_eq!(rt; Keyword::of(b"Int"), None);
    assert_eq!(rt; Punctuator::of(b"->"), Some(Punctuator::Arrow));
    assert_eq!(rt; Punctuator::of(b"?"), None);
}
