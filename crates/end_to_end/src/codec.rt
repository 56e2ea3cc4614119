//! Rows of `encode` and `decode`: the frame of values, and the values of a frame.
use crate::databases::{EXAMPLE, EXAMPLE_CHOICES, TRUCK};
use crate::table::{check_about, plain};
use cli_tool::Status;
use std::alloc::Global;
use std::process::Abort;
use std::test::Fail;

/// A message without signals, a name with `=` in it, and a frame of an extended id.
const EDGE: &str = "BO_ 516 Ping: 0 X
BO_ 2147483649 Named: 9 X
 SG_ S : 62|3@1- (1,0) [0|0] \"\" X
 SG_ T : 65|7@1+ (1,0) [0|0] \"\" X
BA_ \"SystemSignalLongSymbol\" SG_ 2147483649 S \"a=b\";
";

const USAGE: &str = "cantoolc: wrong words\n";

/// Words behind the name of a command, with the report; `-` where the words are wrong.
const EXAMPLES: &[(&str, &str)] = &[
    (
        "encode example.dbc Example Enable=1 AverageRadius=32 Temperature=55",
        "c006e00000000000\n",
    ),
    (
        "encode example.dbc Example Temperature=-1",
        "01ffe00000000000\n",
    ),
    ("encode example.dbc Example", "0000000000000000\n"),
    (
        "decode example.dbc 496 01ffe00000000000",
        "Enable=0\nAverageRadius=0\nTemperature=-1\n",
    ),
    // A wide value has its low bits in the frame, and no neighbour is touched.
    (
        "encode example.dbc Example AverageRadius=255",
        "7e00000000000000\n",
    ),
    (
        "encode example.dbc Example Temperature=32767",
        "01ffe00000000000\n",
    ),
    (
        "encode example.dbc Example Temperature=-32768",
        "0000000000000000\n",
    ),
    // The field of a signal holds no more.
    ("encode example.dbc Example Enable=256", "-"),
    ("encode example.dbc Example Enable=-1", "-"),
    ("encode example.dbc Example Temperature=32768", "-"),
    ("encode example.dbc Example Temperature=-32769", "-"),
    (
        "encode example.dbc Example Enable=99999999999999999999999999999999999999999",
        "-",
    ),
    // Decimal digits behind a `-` or none.
    (
        "encode example.dbc Example Enable=007",
        "8000000000000000\n",
    ),
    ("encode example.dbc Example Enable=-0", "0000000000000000\n"),
    ("encode example.dbc Example Enable=+1", "-"),
    ("encode example.dbc Example Enable=0x1", "-"),
    ("encode example.dbc Example Enable=", "-"),
    ("encode example.dbc Example Enable=-", "-"),
    ("encode example.dbc Example Enable", "-"),
    // Names of a message and its signals, each signal once.
    ("encode example.dbc Example Enable=1 Enable=1", "-"),
    (
        "encode example.dbc Example Temperature=0 Enable=1 AverageRadius=0 Enable=0",
        "-",
    ),
    ("encode example.dbc Example enable=1", "-"),
    ("encode example.dbc Example =1", "-"),
    ("encode example.dbc example Enable=1", "-"),
    ("encode example.dbc 496 Enable=1", "-"),
    ("encode example.dbc", "-"),
    // An id and a frame.
    ("decode example.dbc 497 00", "-"),
    ("decode example.dbc 497 0000000000000000", "-"),
    ("decode example.dbc -496 0000000000000000", "-"),
    (
        "decode example.dbc 18446744073709552112 0000000000000000",
        "-",
    ),
    ("decode example.dbc Example 0000000000000000", "-"),
    ("decode example.dbc 0x1f0 0000000000000000", "-"),
    ("decode example.dbc 496 00000000000000", "-"),
    ("decode example.dbc 496 000000000000000", "-"),
    ("decode example.dbc 496 000000000000000g", "-"),
    ("decode example.dbc 496", "-"),
    (
        "decode example.dbc 0496 01FFe00000000000abcd",
        "Enable=0\nAverageRadius=0\nTemperature=-1\n",
    ),
    (
        "decode example.dbc 496 ff00200000000000",
        "Enable=1\nAverageRadius=63\nTemperature=-2047\n",
    ),
];

const TRUCKS: &[(&str, &str)] = &[
    (
        "encode truck.dbc EEC1 EngineSpeed=8000",
        "000000401f000000\n",
    ),
    (
        "decode truck.dbc 2364540158 000000401f000000",
        "EngineSpeed=8000\n",
    ),
    // Bit 31 of the id marks the extended frame.
    ("decode truck.dbc 217056510 000000401f000000", "-"),
    ("decode truck.dbc 3221225472 00", "-"),
];

const EDGES: &[(&str, &str)] = &[
    ("encode edge.dbc Ping", "\n"),
    ("encode edge.dbc Ping S=1", "-"),
    ("decode edge.dbc 516 00", ""),
    // The last `=` cuts the word.
    ("encode edge.dbc Named a=b=-3", "000000000000004001\n"),
    ("encode edge.dbc Named T=128 a=b=3", "00000000000000c000\n"),
    ("encode edge.dbc Named S=3", "-"),
    ("encode edge.dbc Named a=b", "-"),
    (
        "decode edge.dbc 2147483649 000000000000004001",
        "a=b=-3\nT=0\n",
    ),
];

/// Texts with what is told of them before the words are looked at.
const FAULTS: &[(&str, &str, &str)] = &[
    (
        "encode a.dbc Nope",
        "BO_ 1 A: 9999 X",
        "refused 14 MessageTooLong line 1 A\n",
    ),
    (
        "decode a.dbc 2 00",
        "BO_ 1 A: 8",
        "refused 4 Unexpected line 1\n",
    ),
    ("encode a.sym Nope", "", "refused 25 NotYet line 0\n"),
];

/// Runs a row over one file; `-` in place of a report is wrong words.
fn check_row<'a>(
    rt: &impl Abort,
    alloc: Global,
    file: &'a str,
    text: &'a str,
    words: &'a str,
    report: &'a str,
) -> Result<(), Fail> {
    let files = [(file, text.as_bytes())];
    let left = [(file, Some(text.as_bytes()))];
    let (status, told) = if report == "-" {
        (Status::Usage, USAGE.as_bytes())
    } else {
        (Status::Done, report.as_bytes())
    };
    check_about(rt, alloc, &plain(words, &files, status, told, &left), words)
}

/// Runs each row over one file.
fn check_rows(
    rt: &impl Abort,
    alloc: Global,
    file: &str,
    text: &str,
    rows: &[(&str, &str)],
) -> Result<(), Fail> {
    for &(words, report) in rows {
        check_row(rt, alloc, file, text, words, report)?;
    }
    Ok(())
}

#[test]
fn values_have_frames(rt: HostRuntime) -> Result<(), Fail> {
    let alloc = rt.alloc();
    let example = [EXAMPLE, EXAMPLE_CHOICES].concat(alloc)?;
    check_rows(&rt, alloc, "example.dbc", &example, EXAMPLES)?;
    check_rows(&rt, alloc, "truck.dbc", TRUCK, TRUCKS)?;
    check_rows(&rt, alloc, "edge.dbc", EDGE, EDGES)
}

#[test]
fn databases_are_refused_first(rt: HostRuntime) -> Result<(), Fail> {
    for &(words, text, report) in FAULTS {
        let file = if report.contains("NotYet") {
            "a.sym"
        } else {
            "a.dbc"
        };
        let files = [(file, text.as_bytes())];
        let left = [(file, Some(text.as_bytes()))];
        let row = plain(words, &files, Status::Refused, report.as_bytes(), &left);
        check_about(&rt, rt.alloc(), &row, words)?;
    }
    let row = plain("encode b.dbc Nope", &[], Status::FileFault, b"", &[]);
    check_about(&rt, rt.alloc(), &row, "no file")
}

/// How many bytes the message of each trial has.
const BYTES: usize = 20;

/// The bytes in hexadecimal digits, where a signal has its bit k at place `start + k`, or, for
/// Motorola, at the place that has as many bits before it, each byte from its top on, as the start
/// and `length - 1 - k` more.
fn frame_of(
    alloc: Global,
    start: u32,
    length: u32,
    motorola: bool,
    value: i128,
) -> Result<String, Fail> {
    let mut bytes = [0u8; BYTES];
    let mut left = value;
    for k in 0..length {
        let before = 8 * (start / 8 % 64) + 7 - start % 8;
        let rank = before.saturating_add(length - 1 - k);
        let place = if motorola {
            8 * (rank / 8) + 7 - rank % 8
        } else {
            start.saturating_add(k)
        };
        if left.rem_euclid(2) == 1
            && let Some(byte) = bytes.get_mut((place / 8) as usize)
        {
            *byte |= 1 << (place % 8);
        }
        left = left.div_euclid(2);
    }
    let mut text = String::new(alloc);
    for byte in bytes {
        write!(text, "{byte:02x}")?;
    }
    Ok(text)
}

/// Checks the frame of a value, and the value of that frame.
fn check_frame(
    rt: &impl Abort,
    alloc: Global,
    start: u32,
    length: u32,
    motorola: bool,
    signed: bool,
    value: i128,
) -> Result<(), Fail> {
    let order = if motorola { 0 } else { 1 };
    let sign = if signed { '-' } else { '+' };
    let text = format!(in alloc;
        "BO_ 7 M: 20 X\n SG_ S : {start}|{length}@{order}{sign} (1,0) [0|0] \"\" X\n"
    )?;
    let frame = frame_of(alloc, start, length, motorola, value)?;
    let encode = format!(in alloc; "encode a.dbc M S={value}")?;
    let told = format!(in alloc; "{frame}\n")?;
    let decode = format!(in alloc; "decode a.dbc 7 {frame}")?;
    let back = format!(in alloc; "S={value}\n")?;
    let rows = [
        (encode.as_str(), told.as_str()),
        (decode.as_str(), back.as_str()),
    ];
    check_rows(rt, alloc, "a.dbc", &text, &rows)
}

/// Numbers of 64 bits; shifted down, they have as many as a signal.
const UNSIGNED: &[u64] = &[0xa5c3_f00f_9669_8765, u64::MAX];

const SIGNED: &[i64] = &[-0x5a3c_0ff0_6996_789b, 0x5a3c_0ff0_6996_789b, i64::MIN];

#[test]
fn frames_hold_the_bits_of_values(rt: HostRuntime) -> Result<(), Fail> {
    let alloc = rt.alloc();
    for length in 1..=64u32 {
        let start = 3 + 7 * length % 61;
        for motorola in [false, true] {
            for number in UNSIGNED {
                let value = i128::from(*number >> (64 - length));
                check_frame(&rt, alloc, start, length, motorola, false, value)?;
            }
            for number in SIGNED {
                let value = i128::from(*number >> (64 - length));
                check_frame(&rt, alloc, start, length, motorola, true, value)?;
            }
        }
    }
    Ok(())
}
