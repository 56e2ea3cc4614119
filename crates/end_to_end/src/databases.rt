//! Rows of `generate_c_source FILE`: what stands in the header of a database, and how texts and
//! their databases are refused.
use crate::table::{check_about, plain};
use can_model::TEXT_LIMIT;
use cli_tool::Status;
use std::alloc::Global;
use std::process::Abort;
use std::test::Fail;

/// An ordinary editor file, with statements of which nothing is kept.
pub(super) const TRUCK: &str = "VERSION \"\"

NS_ :
\tNS_DESC_
\tCM_
\tBA_DEF_
\tSG_MUL_VAL_

BS_:

BU_: Engine Gateway
VAL_TABLE_ OnOff 1 \"On\" 0 \"Off\" ;

BO_ 2364540158 EEC1: 8 Engine
 SG_ EngineSpeed : 24|16@1+ (0.125,0) [0|8031.875] \"rpm\"  Gateway

BO_ 3221225472 VECTOR__INDEPENDENT_SIG_MSG: 0 Vector__XXX
 SG_ Unused : 0|8@1+ (1,0) [0|0] \"\" Vector__XXX

BO_TX_BU_ 2364540158 : Engine,Gateway;
CM_ SG_ 2364540158 EngineSpeed \"Actual engine speed.\";
BA_DEF_ BO_  \"GenMsgCycleTime\" INT 0 65535;
BA_DEF_DEF_  \"GenMsgCycleTime\" 0;
BA_ \"GenMsgCycleTime\" BO_ 2364540158 100;
";

pub(super) const EXAMPLE: &str = r#"VERSION "1"
BU_: ECU
BO_ 496 Example: 8 ECU
 SG_ Enable : 7|1@0+ (1,0) [0|0] "-" ECU
 SG_ AverageRadius : 6|6@0+ (0.1,0) [0|5] "m" ECU
 SG_ Temperature : 0|12@0- (0.01,250) [229.52|270.47] "degK" ECU
"#;

pub(super) const EXAMPLE_CHOICES: &str = r#"VAL_ 496 Enable 1 "Enabled" 0 "Disabled" ;
"#;

/// The second comment of the message counts, whose second line is shown behind a `.`.
const EXAMPLE_COMMENTS: &str = r#"CM_ BO_ 496 "old";
CM_ BO_ 496 "Sent by
*ECU*?";
CM_ SG_ 496 Enable "Whether it is sent.";
CM_ "A bus.";
"#;

const EXAMPLE_LONG_NAME: &str = r#"BA_ "SystemMessageLongSymbol" BO_ 496 "LongName";
"#;

/// The file's name without its ending, the text in pieces, and what the header has of its messages.
const HEADERS: &[(&str, &[&str], &str)] = &[
    (
        "truck",
        &[TRUCK],
        "
/* Message EEC1 */
#define TRUCK_EEC1_FRAME_ID (0xcf004feu)
#define TRUCK_EEC1_LENGTH (8u)
#define TRUCK_EEC1_IS_EXTENDED (1)

struct truck_eec1_t {
    /* EngineSpeed [rpm] Actual engine speed. */
    uint16_t engine_speed;
};

int truck_eec1_pack(uint8_t *dst_p, const struct truck_eec1_t *src_p, size_t size);
",
    ),
    (
        "edge",
        &["BO_ 1 AB: 1 X\nBO_ 2 Ab: 2 X\nBO_ 3 aB: 3 X"],
        "
/* Message AB */
#define EDGE_AB_FRAME_ID (0x1u)
#define EDGE_AB_LENGTH (1u)
#define EDGE_AB_IS_EXTENDED (0)

struct edge_ab_t {
    uint8_t dummy;
};

int edge_ab_pack(uint8_t *dst_p, const struct edge_ab_t *src_p, size_t size);

/* Message Ab */
#define EDGE_AB_FRAME_ID_2 (0x2u)
#define EDGE_AB_LENGTH_2 (2u)
#define EDGE_AB_IS_EXTENDED_2 (0)

struct edge_ab_t_2 {
    uint8_t dummy;
};

int edge_ab_pack_2(uint8_t *dst_p, const struct edge_ab_t_2 *src_p, size_t size);

/* Message aB */
#define EDGE_A_B_FRAME_ID (0x3u)
#define EDGE_A_B_LENGTH (3u)
#define EDGE_A_B_IS_EXTENDED (0)

struct edge_a_b_t {
    uint8_t dummy;
};

int edge_a_b_pack(uint8_t *dst_p, const struct edge_a_b_t *src_p, size_t size);
",
    ),
    (
        "example",
        &[EXAMPLE],
        "
/* Message Example */
#define EXAMPLE_EXAMPLE_FRAME_ID (0x1f0u)
#define EXAMPLE_EXAMPLE_LENGTH (8u)
#define EXAMPLE_EXAMPLE_IS_EXTENDED (0)

struct example_example_t {
    /* Enable [-] */
    uint8_t enable;
    /* AverageRadius [m] */
    uint8_t average_radius;
    /* Temperature [degK] */
    int16_t temperature;
};

int example_example_pack(uint8_t *dst_p, const struct example_example_t *src_p, size_t size);
",
    ),
    (
        "example",
        &[EXAMPLE, EXAMPLE_CHOICES],
        "
/* Message Example */
#define EXAMPLE_EXAMPLE_FRAME_ID (0x1f0u)
#define EXAMPLE_EXAMPLE_LENGTH (8u)
#define EXAMPLE_EXAMPLE_IS_EXTENDED (0)

struct example_example_t {
    /* Enable [-] */
    uint8_t enable;
    /* AverageRadius [m] */
    uint8_t average_radius;
    /* Temperature [degK] */
    int16_t temperature;
};

int example_example_pack(uint8_t *dst_p, const struct example_example_t *src_p, size_t size);
",
    ),
    (
        "example",
        &[EXAMPLE_COMMENTS, EXAMPLE, EXAMPLE_LONG_NAME],
        "
/* Message LongName Sent by..ECU.. */
#define EXAMPLE_LONG_NAME_FRAME_ID (0x1f0u)
#define EXAMPLE_LONG_NAME_LENGTH (8u)
#define EXAMPLE_LONG_NAME_IS_EXTENDED (0)

struct example_long_name_t {
    /* Enable [-] Whether it is sent. */
    uint8_t enable;
    /* AverageRadius [m] */
    uint8_t average_radius;
    /* Temperature [degK] */
    int16_t temperature;
};

int example_long_name_pack(uint8_t *dst_p, const struct example_long_name_t *src_p, size_t size);
",
    ),
];

/// Texts with the report on each. A `~` in a text stands for a scaling that changes nothing, no limits, no
/// unit and a receiver.
type Texts = &'static [(&'static str, &'static str)];

/// Each number of a fault, and what is no fault yet.
const FAULTS: Texts = &[
    // Texts.
    ("VERSION \"\"\nBO_ 1 A: 8 X\n#", "refused 1 BadByte line 3"),
    ("x # ;", "refused 1 BadByte line 1"),
    ("VERSION \"abc", "refused 2 OpenString line 1"),
    ("CM_ \"a\nb\";\nCM_ \"c\n\n", "refused 2 OpenString line 3"),
    ("BO_ 4294967296 A: 8 X", "refused 3 BadNumber line 1"),
    ("BO_ 1 A:", "refused 4 Unexpected line 1"),
    ("BO_ 1 A: 8\n\n", "refused 4 Unexpected line 3"),
    (
        "VERSION \"\"\nBO_ 1 A: 8 X\n SG_ S : 0|8@1",
        "refused 4 Unexpected line 3",
    ),
    (
        "VERSION \"\"\n SG_ S : 0|8@1+~",
        "refused 6 LateSignal line 2",
    ),
    // Names and ids of messages: their kind of frame belongs to the id.
    (
        "BO_ 1 A: 8 X\nBO_ 2 A: 8 X",
        "refused 10 DuplicateMessageName line 2 A",
    ),
    (
        "BO_ 1 A: 8 X\nBO_ 1 B: 8 X",
        "refused 11 DuplicateMessageId line 2 B",
    ),
    ("BO_ 1 A: 8 X\nBO_ 2147483649 B: 8 X", "a.h"),
    (
        "BO_ 1 A: 8 X\n SG_ S : 0|8@1+~\n SG_ S : 8|8@1+~",
        "refused 12 DuplicateSignalName line 3 A.S",
    ),
    (
        "BO_ 1 A: 8 X\n SG_ S : 0|8@1+~\nBO_ 2 B: 8 X\n SG_ S : 0|8@1+~",
        "a.h",
    ),
    // Limits of messages.
    ("BO_ 2047 A: 2048 X", "a.h"),
    ("BO_ 2048 A: 8 X", "refused 13 FrameIdRange line 1 A"),
    ("BO_ 2684354559 A: 8 X", "a.h"),
    ("BO_ 2684354560 A: 8 X", "refused 13 FrameIdRange line 1 A"),
    ("BO_ 1 A: 2049 X", "refused 14 MessageTooLong line 1 A"),
    // A message and a signal have the line of their statement's first word.
    ("\r\nBO_\n2048\nA: 8 X", "refused 13 FrameIdRange line 2 A"),
    (
        "BO_ 1 A: 8 X SG_\nS : 0|0@1+~",
        "refused 15 SignalLength line 1 A.S",
    ),
    // Lengths and places of signals.
    (
        "BO_ 1 A: 8 X\n SG_ S : 0|65@1+~",
        "refused 15 SignalLength line 2 A.S",
    ),
    (
        "BO_ 1 A: 8 X\n SG_ S : 0|0@1+~",
        "refused 15 SignalLength line 2 A.S",
    ),
    (
        "BO_ 1 A: 8 X\n SG_ S : 60|8@1+~",
        "refused 16 SignalOutside line 2 A.S",
    ),
    (
        "BO_ 1 A: 0 X\n SG_ S : 0|1@1+~",
        "refused 16 SignalOutside line 2 A.S",
    ),
    (
        "BO_ 1 A: 2048 X\n SG_ S : 65535|1@0+~",
        "refused 16 SignalOutside line 2 A.S",
    ),
    ("BO_ 1 A: 8 X\n SG_ S : 0|64@1+~", "a.h"),
    ("BO_ 1 A: 8 X\n SG_ S : 7|64@0-~", "a.h"),
    (
        "BO_ 1 A: 8 X\n SG_ S : 6|64@0-~",
        "refused 16 SignalOutside line 2 A.S",
    ),
    ("BO_ 1 A: 2 X\n SG_ S : 0|2@0+~\n SG_ T : 8|7@1+~", "a.h"),
    (
        "BO_ 1 A: 2 X\n SG_ S : 0|2@0+~\n SG_ T : 15|1@1+~",
        "refused 17 Overlap line 3 A.T",
    ),
    (
        "VERSION \"\"\nBO_ 1 A: 8 X\n SG_ S : 0|8@1+~\n SG_ T : 7|2@1+~",
        "refused 17 Overlap line 4 A.T",
    ),
    // Types of values: the last one counts, for the id and the name as they are written.
    (
        "VERSION \"\"\nBO_ 1 A: 8 X\n SG_ S : 0|8@1+~\nSIG_VALTYPE_ 1 S : 1;",
        "refused 20 FloatSignal line 3 A.S",
    ),
    (
        "SIG_VALTYPE_ 2147483649 S 2; BO_ 2147483649 A: 8 X\n SG_ S : 0|64@1+~",
        "refused 20 FloatSignal line 2 A.S",
    ),
    (
        "BO_ 1 A: 8 X\n SG_ S : 0|8@1+~\nSIG_VALTYPE_ 1 S : 1; SIG_VALTYPE_ 1 S : 3;",
        "a.h",
    ),
    (
        "BO_ 2147483649 A: 8 X\n SG_ S : 0|8@1+~\nSIG_VALTYPE_ 1 S : 1; SIG_VALTYPE_ 2147483649 T : 1;",
        "a.h",
    ),
    (
        "BO_ 1 A: 8 X\n SG_ S : 0|8@1+~\nBA_ \"SystemSignalLongSymbol\" SG_ 1 S \"T\";\nSIG_VALTYPE_ 1 S : 1;",
        "refused 20 FloatSignal line 2 A.T",
    ),
    (
        "BO_ 1 A: 8 X\n SG_ S : 0|8@1+~\nBA_ \"SystemSignalLongSymbol\" SG_ 1 S \"T\";\nSIG_VALTYPE_ 1 T : 1;",
        "a.h",
    ),
    // The factor in the unit is below 2^60 in size, and the offset below 2^100.
    (
        "VERSION \"\"\nBO_ 1 A: 8 X\n SG_ S : 0|8@1+ (1E-31,1) [0|0] \"\" X",
        "refused 21 ScaleTooWide line 3 A.S",
    ),
    (
        "BO_ 1 A: 8 X\n SG_ S : 0|8@1+ (1E-30,1) [0|0] \"\" X",
        "a.h",
    ),
    (
        "BO_ 1 A: 8 X\n SG_ S : 0|8@1+ (0,1E-31) [0|0] \"\" X",
        "a.h",
    ),
    (
        "BO_ 1 A: 8 X\n SG_ S : 0|8@1+ (-1152921504606846976,0) [0|0] \"\" X",
        "refused 21 ScaleTooWide line 2 A.S",
    ),
    (
        "BO_ 1 A: 8 X\n SG_ S : 0|8@1+ (-1152921504606846975,0) [0|0] \"\" X",
        "a.h",
    ),
    (
        "BO_ 1 A: 8 X\n SG_ S : 0|8@1+ (1,1267650600228229401496703206e3) [0|0] \"\" X",
        "refused 21 ScaleTooWide line 2 A.S",
    ),
    (
        "BO_ 1 A: 8 X\n SG_ S : 0|8@1+ (1,1267650600228229401496703205e3) [0|0] \"\" X",
        "a.h",
    ),
    // Words of multiplexed signals are not read yet; other words there are no such words.
    (
        "BO_ 1 A: 8 X\n SG_ S\nM : 0|8@1+~",
        "refused 25 NotYet line 3",
    ),
    (
        "BO_ 1 A: 8 X\n SG_ S m0 : 0|8@1+~",
        "refused 25 NotYet line 2",
    ),
    ("BO_ 1 A: 8 X\n SG_ S m12M #", "refused 25 NotYet line 2"),
    (
        "BO_ 1 A: 8 X\n SG_ S m18446744073709551616 : 0|8@1+~",
        "refused 25 NotYet line 2",
    ),
    (
        "BO_ 1 A: 8 X\n SG_ S m : 0|8@1+~",
        "refused 4 Unexpected line 2",
    ),
    (
        "BO_ 1 A: 8 X\n SG_ S mM : 0|8@1+~",
        "refused 4 Unexpected line 2",
    ),
    (
        "BO_ 1 A: 8 X\n SG_ S M1 : 0|8@1+~",
        "refused 4 Unexpected line 2",
    ),
    (
        "BO_ 1 A: 8 X\n SG_ S m1m : 0|8@1+~",
        "refused 4 Unexpected line 2",
    ),
    (
        "BO_ 1 A: 8 X\n SG_ S 1 : 0|8@1+~",
        "refused 4 Unexpected line 2",
    ),
    ("BO_ 1 A: 8 X\n SG_ M : 0|8@1+~", "a.h"),
    // Messages of one identifier are no fault.
    ("BO_ 1 aB: 8 X\nBO_ 2 Ab: 8 X\nBO_ 3 A_B: 8 X", "a.h"),
    // Long names are the ones that are compared and told, and bytes of them that are not seen.
    (
        "BO_ 1 A: 8 X\nBO_ 2 B: 8 X\nBA_ \"SystemMessageLongSymbol\" BO_ 2 \"A\";",
        "refused 10 DuplicateMessageName line 2 A",
    ),
    (
        "BO_ 1 A: 8 X\nBO_ 2 A: 8 X\nBA_ \"SystemMessageLongSymbol\" BO_ 2 \"B\";",
        "a.h",
    ),
    (
        "BO_ 2048 A: 8 X\nBA_ \"SystemMessageLongSymbol\" BO_ 2048 \"\u{C4} b\";",
        "refused 13 FrameIdRange line 1 ...b",
    ),
    (
        "BO_ 1 A: 8 X\n SG_ S : 0|0@1+~\nBA_ \"SystemSignalLongSymbol\" SG_ 1 S \"x\ty\";",
        "refused 15 SignalLength line 2 A.x.y",
    ),
    // The message without a frame is dropped by its long name, and no fault of it is told.
    (
        "BO_ 3221225472 VECTOR__INDEPENDENT_SIG_MSG: 0 X\n SG_ S : 0|8@1+~\n SG_ S : 0|0@1+~",
        "a.h",
    ),
    (
        "BO_ 3221225472 VECTOR__INDEPENDENT_SIG_MSG: 0 X\nBA_ \"SystemMessageLongSymbol\" BO_ 3221225472 \"B\";",
        "refused 13 FrameIdRange line 1 B",
    ),
    (
        "BO_ 2048 A: 8 X\nBA_ \"SystemMessageLongSymbol\" BO_ 2048 \"VECTOR__INDEPENDENT_SIG_MSG\";",
        "a.h",
    ),
];

/// Texts with two faults, of which the first one is told: by message, then by signal, then by
/// number, and a message's own ones before those of its signals.
const PAIRS: Texts = &[
    // Two faults of one message.
    (
        "BO_ 1 A: 8 X\nBO_ 1 A: 8 X",
        "refused 10 DuplicateMessageName line 2 A",
    ),
    (
        "BO_ 1 A: 8 X\nBO_ 2048 A: 8 X",
        "refused 10 DuplicateMessageName line 2 A",
    ),
    (
        "BO_ 1 A: 8 X\nBO_ 1 B: 2049 X",
        "refused 11 DuplicateMessageId line 2 B",
    ),
    ("BO_ 2048 A: 2049 X", "refused 13 FrameIdRange line 1 A"),
    // Two faults of one signal.
    (
        "BO_ 1 A: 8 X\n SG_ S : 0|8@1+~\n SG_ S : 8|0@1+~",
        "refused 12 DuplicateSignalName line 3 A.S",
    ),
    (
        "BO_ 1 A: 8 X\n SG_ S : 0|8@1+~\n SG_ S : 0|8@1+~",
        "refused 12 DuplicateSignalName line 3 A.S",
    ),
    (
        "BO_ 1 A: 8 X\n SG_ S : 64|0@1+~",
        "refused 15 SignalLength line 2 A.S",
    ),
    (
        "BO_ 1 A: 8 X\n SG_ S : 64|65@1+~",
        "refused 15 SignalLength line 2 A.S",
    ),
    (
        "BO_ 1 A: 8 X\n SG_ S : 0|8@1+~\n SG_ T : 0|65@1+~",
        "refused 15 SignalLength line 3 A.T",
    ),
    (
        "BO_ 1 A: 1 X\n SG_ S : 0|8@1+~\n SG_ T : 4|8@1+~",
        "refused 16 SignalOutside line 3 A.T",
    ),
    (
        "BO_ 1 A: 1 X\n SG_ S : 4|8@1+~\nSIG_VALTYPE_ 1 S : 1;",
        "refused 16 SignalOutside line 2 A.S",
    ),
    (
        "BO_ 1 A: 8 X\n SG_ S : 0|8@1+~\n SG_ T : 7|2@1+~\nSIG_VALTYPE_ 1 T : 1;",
        "refused 17 Overlap line 3 A.T",
    ),
    (
        "BO_ 1 A: 8 X\n SG_ S : 0|8@1+~\n SG_ T : 7|2@1+ (1E-31,1) [0|0] \"\" X",
        "refused 17 Overlap line 3 A.T",
    ),
    (
        "BO_ 1 A: 8 X\n SG_ S : 0|8@1+ (1E-31,1) [0|0] \"\" X\nSIG_VALTYPE_ 1 S : 2;",
        "refused 20 FloatSignal line 2 A.S",
    ),
    // Two signals of one message.
    (
        "BO_ 1 A: 8 X\n SG_ S : 0|8@1+ (1E-31,1) [0|0] \"\" X\n SG_ S : 0|0@1+~",
        "refused 21 ScaleTooWide line 2 A.S",
    ),
    (
        "BO_ 1 A: 8 X\n SG_ S : 0|8@1+~\n SG_ T : 0|8@1+~\n SG_ S : 0|65@1+~",
        "refused 17 Overlap line 3 A.T",
    ),
    // A message and its signals.
    (
        "BO_ 2048 A: 8 X\n SG_ S : 0|8@1+~\n SG_ S : 8|8@1+~",
        "refused 13 FrameIdRange line 1 A",
    ),
    (
        "BO_ 1 A: 2049 X\n SG_ S : 0|0@1+~",
        "refused 14 MessageTooLong line 1 A",
    ),
    // Two messages.
    (
        "BO_ 2048 A: 8 X\nBO_ 2048 A: 8 X",
        "refused 13 FrameIdRange line 1 A",
    ),
    (
        "BO_ 1 A: 2049 X\nBO_ 1 A: 8 X",
        "refused 14 MessageTooLong line 1 A",
    ),
    (
        "BO_ 1 A: 8 X\n SG_ S : 0|8@1+ (1E-31,1) [0|0] \"\" X\nBO_ 1 A: 8 X",
        "refused 21 ScaleTooWide line 2 A.S",
    ),
    // A fault of the text and one of its database, and messages of one identifier.
    (
        " SG_ S : 0|8@1+~\nBO_ 1 A: 8 X\n#",
        "refused 1 BadByte line 3",
    ),
    (
        " SG_ S : 0|8@1+~\nBO_ 2048 A: 8 X",
        "refused 6 LateSignal line 1",
    ),
    ("BO_ 2048 A: 8 X\nBO_ 1 B:", "refused 4 Unexpected line 2"),
    (
        "BO_ 1 AB: 8 X\nBO_ 2 Ab: 8 X\nBO_ 3 C: 2049 X",
        "refused 14 MessageTooLong line 3 C",
    ),
    ("# \"", "refused 1 BadByte line 1"),
    ("BO_ 1.5 #", "refused 3 BadNumber line 1"),
];

/// So many messages of a length with so many signals of one bit each, one more message with its
/// own count of them, and the report.
type Counts = &'static [(u32, u32, u32, u32, &'static str)];

const SIGNAL_COUNTS: Counts = &[
    (2048, 0, 0, 4096, "a.h"),
    (2048, 0, 0, 4097, "refused 22 TooMany line 1 M0"),
    (2049, 0, 0, 4097, "refused 14 MessageTooLong line 1 M0"),
    // The same message has a signal behind its last byte.
    (1, 0, 0, 4097, "refused 22 TooMany line 1 M0"),
    (1, 0, 0, 9, "refused 16 SignalOutside line 10 M0.S8"),
];

/// Ids above 2047 are faults of their messages, which go behind those of the whole file.
const FILE_COUNTS: Counts = &[
    (0, 16383, 0, 0, "refused 13 FrameIdRange line 2049 M2048"),
    (0, 16384, 0, 0, "refused 22 TooMany line 16385"),
    (512, 8, 4096, 1, "refused 22 TooMany line 32778"),
];

/// The tokens of a statement, and under each what may stand in its place: `w` a word, `s` a string,
/// `@` this mark, `n` a number that fits, `N` any number, `e` the text's end; or `.` none of them.
const STATEMENTS: &[&str] = &[
    r#"VERSION "1"
       we      wse"#,
    r#"NS_ :     CM_   "a"
       we  wsN@e wsN@e wsN@e"#,
    r#"BS_ : 500 ,   1.5
       we  . wNe wNe wNe"#,
    r#"BU_ : X  Y
       we  . we we"#,
    r#"BO_ 2 B : 8 X
       we  n w . n w"#,
    r#"SG_ S : 0 | 8 @ 1 - ( + 1 , - 0.5 ) [ 0 | 1 ] "" X  ,  BO_
       we  w . n . n @ n . . n n . n n   . . n . n . s  we we w"#,
    r#"CM_ "a" ;
       we  s   ."#,
    r#"CM_ BU_ X "a" ;
       we  s   w s   ."#,
    r#"CM_ BO_ 1 "a" ;
       we  s   n s   ."#,
    r#"CM_ SG_ 1 S "a" ;
       we  s   n w s   ."#,
    r#"CM_ EV_ V "a" ;
       we  s   w s   ."#,
    r#"BA_DEF_DEF_ "a" "b" ;
       we          s   wsn ."#,
    r#"BA_DEF_DEF_ "a" b   ;
       we          s   wsn ."#,
    r#"BA_DEF_DEF_ "a" -   1 ;
       we          s   wsn n ."#,
    r#"BA_ "a" "b" ;
       we  s   sn  ."#,
    r#"BA_ "a" BU_ X 1  ;
       we  s   sn  w sn ."#,
    r#"BA_ "a" BO_ 1 +  1 ;
       we  s   sn  n sn n ."#,
    r#"BA_ "a" SG_ 1 S "b" ;
       we  s   sn  n w sn  ."#,
    r#"BA_ "a" EV_ V 1  ;
       we  s   sn  w sn ."#,
    r#"VAL_ 1  S 1 "a" - 1 "b" ;
       we   wn w n s   n n s   n"#,
    r#"VAL_ V  ;
       we   wn n"#,
    r#"SIG_VALTYPE_ 1 S : 0 ;
       we           n w n n ."#,
    r#"SG_MUL_VAL_ 1 S T 0 - 1 , 3 - 4 ;
       we          n w w n . n . n . n ."#,
    r#"BA_DEF_ BO_  "a"  1.5  ;
       we      wsN@ wsN@ wsN@ wsN@"#,
    r#";
       we"#,
];

/// Tokens that are put in each place, what lets them stand there, and their fault elsewhere.
const TRIALS: &[(&str, u8, &str)] = &[
    ("x", b'w', "4 Unexpected"),
    ("\"x\"", b's', "4 Unexpected"),
    ("@", b'@', "4 Unexpected"),
    ("1e999", b'N', "4 Unexpected"),
    ("%", b'%', "1 BadByte"),
];

/// Runs `generate_c_source a.dbc` over this text: the report without its line end, or `a.h` where
/// the text is not refused.
fn check_text(rt: &impl Abort, alloc: Global, text: &str, report: &str) -> Result<(), Fail> {
    let bytes = text.as_bytes();
    let files = [("a.dbc", bytes)];
    let words = "generate_c_source a.dbc";
    if report == "a.h" {
        let left = [("a.dbc", Some(bytes))];
        let row = plain(words, &files, Status::Done, b"a.h\na.c\n", &left);
        check_about(rt, alloc, &row, text)
    } else {
        let told = format!(in alloc; "{report}\n")?;
        let left = [("a.dbc", Some(bytes)), ("a.h", None), ("a.c", None)];
        let row = plain(words, &files, Status::Refused, told.as_bytes(), &left);
        check_about(rt, alloc, &row, text)
    }
}

/// Checks each text of a table.
fn check_texts(rt: &impl Abort, alloc: Global, texts: Texts) -> Result<(), Fail> {
    for (text, report) in texts {
        let text = text.replace(alloc, "~", " (1,0) [0|0] \"\" X")?;
        check_text(rt, alloc, &text, report)?;
    }
    Ok(())
}

#[test]
fn messages_have_their_declarations(rt: HostRuntime) -> Result<(), Fail> {
    let alloc = rt.alloc();
    for &(name, pieces, messages) in HEADERS {
        let words = format!(in alloc; "generate_c_source {name}.dbc")?;
        let file = format!(in alloc; "{name}.dbc")?;
        let written = format!(in alloc; "{name}.h")?;
        let report = format!(in alloc; "{name}.h\n{name}.c\n")?;
        let text = pieces.concat(alloc)?;
        let guard = format!(in alloc; "{name}_h")?.to_ascii_uppercase(alloc)?;
        let header = format!(in alloc;
            "/* Generated from a CAN database. Do not edit. */

#ifndef {guard}
#define {guard}

#include <stdbool.h>
#include <stddef.h>
#include <stdint.h>

#ifndef EINVAL
#define EINVAL 22
#endif
{messages}
#endif
"
        )?;
        let files = [(file.as_str(), text.as_bytes())];
        let left = [(written.as_str(), Some(header.as_bytes()))];
        let row = plain(&words, &files, Status::Done, report.as_bytes(), &left);
        check_about(&rt, alloc, &row, &text)?;
    }
    Ok(())
}

#[test]
fn faults_are_told(rt: HostRuntime) -> Result<(), Fail> {
    check_texts(&rt, rt.alloc(), FAULTS)
}

#[test]
fn the_first_of_two_faults_is_told(rt: HostRuntime) -> Result<(), Fail> {
    check_texts(&rt, rt.alloc(), PAIRS)?;
    let long = "#".repeat(rt.alloc(), TEXT_LIMIT + 1)?;
    check_text(&rt, rt.alloc(), &long, "refused 5 TooLarge line 0")
}

/// Puts a message with so many signals behind a text.
fn put_message(text: &mut String, id: u32, length: u32, signals: u32) -> Result<(), Fail> {
    write!(text, "BO_ {id} M{id}: {length} X\n")?;
    for start in 0..signals {
        write!(text, " SG_ S{start} : {start}|1@1+ (1,0) [0|0] \"\" X\n")?;
    }
    Ok(())
}

fn check_counts(rt: &impl Abort, alloc: Global, counts: Counts) -> Result<(), Fail> {
    for &(length, messages, signals, last, report) in counts {
        let mut text = String::new(alloc);
        for id in 0..messages {
            put_message(&mut text, id, length, signals)?;
        }
        put_message(&mut text, messages, length, last)?;
        check_text(rt, alloc, &text, report)?;
    }
    Ok(())
}

#[test]
fn a_message_has_a_limited_count_of_signals(rt: HostRuntime) -> Result<(), Fail> {
    check_counts(&rt, rt.alloc(), SIGNAL_COUNTS)
}

#[test]
fn a_file_has_a_limited_count_of_messages_and_signals(rt: HostRuntime) -> Result<(), Fail> {
    check_counts(&rt, rt.alloc(), FILE_COUNTS)
}

/// Checks a statement that is cut behind `before`, and with each trial in the place of the token
/// that begins this line, with more tokens behind it.
fn check_place(
    rt: &impl Abort,
    alloc: Global,
    before: &str,
    line: u32,
    may: &[u8],
    behind: &str,
) -> Result<(), Fail> {
    let report = if may.contains(&b'e') {
        String::from_str(alloc, "a.h")?
    } else {
        format!(in alloc; "refused 4 Unexpected line {line}")?
    };
    check_text(rt, alloc, before, &report)?;
    for &(token, kind, fault) in TRIALS {
        if may.contains(&kind) {
            continue;
        }
        let fault = if kind == b'N' && may.contains(&b'n') {
            "3 BadNumber"
        } else {
            fault
        };
        let text = format!(in alloc; "{before}{token}\n{behind}")?;
        let report = format!(in alloc; "refused {fault} line {line}")?;
        check_text(rt, alloc, &text, &report)?;
    }
    Ok(())
}

#[test]
fn statements_are_cut_and_damaged(rt: HostRuntime) -> Result<(), Fail> {
    let alloc = rt.alloc();
    for &row in STATEMENTS {
        let (statement, places) = row.split_once('\n').unwrap_or((row, ""));
        let tokens = statement.split_ascii_whitespace();
        let mut before = String::from_str(alloc, "BO_ 1 A: 8 X\n")?;
        let mut line = 2u32;
        for (token, may) in tokens.zip(places.split_ascii_whitespace()) {
            check_place(&rt, alloc, &before, line, may.as_bytes(), statement)?;
            write!(before, "{token}\n")?;
            line = line.saturating_add(1);
        }
        check_text(&rt, alloc, &before, "a.h")?;
    }
    Ok(())
}
