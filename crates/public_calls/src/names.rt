//! `name_rules`: the identifier of a name, and the names of a database.
use cg_out::{Memory, Text};
use db_text::read_dbc;
use name_rules::{MessageNames, SymbolTable, identifier, symbols};
use std::alloc::{AllocError, Global};
use std::test::Fail;

const IDENTIFIERS: &[(&[u8], &[u8])] = &[
    (b"ABCDef9X", b"abc_def9_x"),
    (b"__", b"x"),
    (b"9a", b"x9a"),
    (b"", b"x"),
    (b"AverageRadius", b"average_radius"),
    (b"EEC1", b"eec1"),
    (
        b"VECTOR__INDEPENDENT_SIG_MSG",
        b"vector_independent_sig_msg",
    ),
    (b"\xc3\xa4B", b"b"),
    (b"a.B", b"a_b"),
    (b"HTTPServer2Go", b"http_server2_go"),
];

#[test]
fn names_have_their_identifiers(rt: HostRuntime) -> Result<(), Memory> {
    for &(text, wanted) in IDENTIFIERS {
        assert_eq!(rt; identifier(rt.alloc(), text)?.bytes(), wanted);
    }
    Ok(())
}

/// A database, whether its choices are pruned, and its names: those of the file in the order in
/// which they are picked, and for each signal its field, and its local variable behind a `/`.
/// `~` stands for what goes on behind a signal's sign.
const NAMES: &[(&str, bool, &str)] = &[
    ("", false, "EDGE_H"),
    (
        "BO_ 496 Example: 8 X
SG_ Enable : 7|1@0+~
SG_ Temperature : 0|12@0-~
VAL_ 496 Enable 1 \"Enabled\" 0 \"Disabled\" ;
BA_ \"GenMsgCycleTime\" BO_ 496 20;",
        false,
        "EDGE_H
EDGE_EXAMPLE_FRAME_ID EDGE_EXAMPLE_LENGTH EDGE_EXAMPLE_IS_EXTENDED EDGE_EXAMPLE_CYCLE_TIME_MS edge_example_t edge_example_pack edge_example_unpack edge_example_init
enable: edge_example_enable_is_in_range EDGE_EXAMPLE_ENABLE_ENABLED_CHOICE EDGE_EXAMPLE_ENABLE_DISABLED_CHOICE
temperature/temperature: edge_example_temperature_is_in_range",
    ),
    // Reserved words, of fields and of locals.
    (
        "BO_ 517 Names: 4 X
SG_ True : 0|8@1+~
SG_ Default : 8|8@1+~
SG_ size : 16|8@1-~
SG_ memset : 24|8@1-~",
        false,
        "EDGE_H
EDGE_NAMES_FRAME_ID EDGE_NAMES_LENGTH EDGE_NAMES_IS_EXTENDED edge_names_t edge_names_pack edge_names_unpack edge_names_init
true_2: edge_names_true_is_in_range
default_2: edge_names_default_is_in_range
size/size_2: edge_names_size_is_in_range
memset_2/memset_2: edge_names_memset_is_in_range",
    ),
    // Different names of the database want one name at file scope.
    (
        "BO_ 518 A: 1 X SG_ B_C : 0|1@1+~ BO_ 519 A_B: 1 X SG_ C : 0|1@1+~",
        false,
        "EDGE_H
EDGE_A_FRAME_ID EDGE_A_LENGTH EDGE_A_IS_EXTENDED edge_a_t edge_a_pack edge_a_unpack edge_a_init
b_c: edge_a_b_c_is_in_range
EDGE_A_B_FRAME_ID EDGE_A_B_LENGTH EDGE_A_B_IS_EXTENDED edge_a_b_t edge_a_b_pack edge_a_b_unpack edge_a_b_init
c: edge_a_b_c_is_in_range_2",
    ),
    // Equal identifiers of messages, and of signals of one and of two messages.
    (
        "BO_ 1 AB: 1 X SG_ S : 0|1@1-~ SG_ s : 1|1@1-~ SG_ S_2 : 2|1@1-~ BO_ 2 Ab: 1 X SG_ S : 0|1@1-~",
        false,
        "EDGE_H
EDGE_AB_FRAME_ID EDGE_AB_LENGTH EDGE_AB_IS_EXTENDED edge_ab_t edge_ab_pack edge_ab_unpack edge_ab_init
s/s: edge_ab_s_is_in_range
s_2/s_2: edge_ab_s_is_in_range_2
s_2_2/s_2_2: edge_ab_s_2_is_in_range
EDGE_AB_FRAME_ID_2 EDGE_AB_LENGTH_2 EDGE_AB_IS_EXTENDED_2 edge_ab_t_2 edge_ab_pack_2 edge_ab_unpack_2 edge_ab_init_2
s/s: edge_ab_s_is_in_range_3",
    ),
    // Choices lose what they all begin with, up to a `_`; one choice alone keeps its name.
    (
        "BO_ 1 A: 1 X SG_ S : 0|2@1+~ SG_ T : 2|2@1+~ SG_ U : 4|2@1+~ SG_ V : 6|1@1+~ SG_ W : 7|1@1+~
VAL_ 1 S 1 \"On_A\" 0 \"On_B\" ; VAL_ 1 T 0 \"On_1\" 1 \"On_2\" ; VAL_ 1 U 0 \"On\" 1 \"On\" ;
VAL_ 1 V 0 \"On_A\" ; VAL_ 1 W 0 \"a_b_c_d\" 1 \"a_b_c\" ;",
        true,
        "EDGE_H
EDGE_A_FRAME_ID EDGE_A_LENGTH EDGE_A_IS_EXTENDED edge_a_t edge_a_pack edge_a_unpack edge_a_init
s: edge_a_s_is_in_range EDGE_A_S_A_CHOICE EDGE_A_S_B_CHOICE
t: edge_a_t_is_in_range EDGE_A_T_ON_1_CHOICE EDGE_A_T_ON_2_CHOICE
u: edge_a_u_is_in_range EDGE_A_U_ON_CHOICE EDGE_A_U_ON_CHOICE_2
v: edge_a_v_is_in_range EDGE_A_V_ON_A_CHOICE
w: edge_a_w_is_in_range EDGE_A_W_C_D_CHOICE EDGE_A_W_C_CHOICE",
    ),
    (
        "BO_ 1 A: 1 X SG_ S : 0|2@1+~ VAL_ 1 S 1 \"On_A\" 0 \"On_B\" ;",
        false,
        "EDGE_H
EDGE_A_FRAME_ID EDGE_A_LENGTH EDGE_A_IS_EXTENDED edge_a_t edge_a_pack edge_a_unpack edge_a_init
s: edge_a_s_is_in_range EDGE_A_S_ON_A_CHOICE EDGE_A_S_ON_B_CHOICE",
    ),
];

/// Puts a name and the byte before it.
fn put(out: &mut Vec<u8>, before: u8, name: &Text) -> Result<(), AllocError> {
    out.push(before)?;
    out.extend_from_slice(name.bytes())
}

fn put_message(out: &mut Vec<u8>, names: &MessageNames) -> Result<(), AllocError> {
    put(out, b'\n', &names.frame_id)?;
    put(out, b' ', &names.length)?;
    put(out, b' ', &names.extended)?;
    if let Some(cycle) = &names.cycle {
        put(out, b' ', cycle)?;
    }
    for name in [&names.tag, &names.pack, &names.unpack, &names.init] {
        put(out, b' ', name)?;
    }
    for signal in names.signals.items() {
        put(out, b'\n', &signal.field)?;
        if let Some(local) = &signal.local {
            put(out, b'/', local)?;
        }
        out.push(b':')?;
        put(out, b' ', &signal.range)?;
        for choice in signal.choices.items() {
            put(out, b' ', choice)?;
        }
    }
    Ok(())
}

fn shown(alloc: Global, names: &SymbolTable) -> Result<Vec<u8>, AllocError> {
    let mut out = Vec::from_slice(alloc, names.guard.bytes())?;
    for message in names.messages.items() {
        put_message(&mut out, message)?;
    }
    Ok(out)
}

#[test]
fn a_database_has_its_names(rt: HostRuntime) -> Result<(), Fail> {
    let alloc = rt.alloc();
    let name = identifier(alloc, b"edge")?;
    for &(text, prune, wanted) in NAMES {
        let text = text.replace(alloc, "~", " (1,0) [0|0] \"\" X")?;
        let checked = read_dbc(alloc, text.as_bytes())?;
        let names = symbols(alloc, checked.database(), &name, prune)?;
        let shown = shown(alloc, &names)?;
        assert_eq!(rt; shown.as_slice(), wanted.as_bytes(), "the names of {text}");
    }
    Ok(())
}
