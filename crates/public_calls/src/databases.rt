//! `dbc_reader`, `dbc_build`, `db_check` and `db_text`: the statements of a text, their database,
//! and the first fault of either.
use can_model::{Database, Signal, TEXT_LIMIT, TextFault};
use cg_out::Text;
use db_check::{CheckFault, check};
use db_text::{DatabaseFault, read_dbc};
use dbc_build::database;
use dbc_reader::{Body, Owner, Statement, Value, statements};
use limit_fraction::Decimal;
use std::alloc::Global;
use std::test::Fail;

/// Texts with what they give, written as a text too: statements or messages and signals, each with
/// its line, or the first fault. Decimals are written as a mantissa and an exponent of ten.
type Rows = &'static [(&'static str, &'static str)];

const STATEMENTS: Rows = &[
    // Each kind of statement.
    (
        "VERSION \"\"\nBU_: X\nBO_ 291 Ping: 2 X\nBO_ 2147483649 Pong: 0 X\n",
        "1;2;3 message 291 Ping 2;4 message 2147483649 Pong 0;",
    ),
    (
        "NS_ :\n\tCM_ 1 ; @\nBS_ : 500 : 1.5 , 2\nBU_ : A B VAL_TABLE_ T 1 \"x\" ;\nFOO : bar ; ;",
        "1;3;4;4;5;5;",
    ),
    (
        "SG_ S : 7|12@0- (0.5,-2.50) [-1E3|+.5] \"km\" X,VAL_ SG_ T:0|8@1.0+(1,0)[0|0]\"\"",
        "1 signal S 7|12 motorola signed 5e-1 -25e-1 -1e3 5e-1 km X VAL_;1 signal T 0|8 intel unsigned 1e0 0e0 0e0 0e0 ;",
    ),
    (
        "CM_ \"a\\\"b\"; CM_ BU_ X \"\"; CM_ BO_ 1 \"c\nd\"; CM_ SG_ 2 S \"e\";\nCM_ EV_ V \"f\";",
        "1 comment file a\\\"b;1 comment node X ;1 comment message 1 c\nd;2 comment signal 2 S e;3 comment variable V f;",
    ),
    (
        "BA_DEF_DEF_ \"A\" -5; BA_DEF_DEF_ \"A\" \"s\"; BA_DEF_DEF_ \"A\" BO_;",
        "1 default A number -5e0;1 default A string s;1 default A word BO_;",
    ),
    (
        "BA_ \"A\" 1E2; BA_ \"A\" BU_ X \"s\"; BA_ \"A\" BO_ 1 +7; BA_ \"A\" SG_ 1 S 0.50; BA_ \"A\" EV_ V 3;",
        "1 attribute A file number 1e2;1 attribute A node X string s;1 attribute A message 1 number 7e0;1 attribute A signal 1 S number 5e-1;1 attribute A variable V number 3e0;",
    ),
    (
        "VAL_ 1 S 1 \"On\" -0.5 \"Low\" +2 \"\" ; VAL_ BO_ 7 \"x\"; VAL_ 1 SG_;",
        "1 choices 1 S 1e0 On -5e-1 Low 2e0 ;1 choices BO_ 7e0 x;1 choices 1 SG_;",
    ),
    (
        "SIG_VALTYPE_ 1 S : 2; SIG_VALTYPE_ 1 BO_ 255;",
        "1 type 1 S 2;1 type 1 BO_ 255;",
    ),
    (
        "SG_MUL_VAL_ 1 S M 0-5, 18446744073709551615 - 7;",
        "1 ranges 1 S M 0-5 18446744073709551615-7;",
    ),
    // Numbers that are whole, and where names stop.
    ("BO_ 1E1 A: 8.0 X", "1 message 10 A 8;"),
    ("BO_ 1.50e1 A: 0e999 X", "1 message 15 A 0;"),
    ("BO_ 1e: 8. X", "1 message 1 e 8;"),
    (
        "BO_ 4294967295 VAL_: 65535 BO_",
        "1 message 4294967295 VAL_ 65535;",
    ),
    (
        "\u{FEFF}VERSION BU_:A B\tC\r\nBO_ .5e+1_a:6BO_",
        "1;1;2 message 5 _a 6;",
    ),
    // The greatest number of each place, and the next one.
    (
        "SG_ S : 65535|65535@1+ (1,0) [0|0] \"\"",
        "1 signal S 65535|65535 intel unsigned 1e0 0e0 0e0 0e0 ;",
    ),
    ("BO_ 1 A: 65536 X", "3 BadNumber line 1"),
    ("BO_ 4294967296 A: 8 X", "3 BadNumber line 1"),
    ("\nBO_ 1.5 A: 8 X", "3 BadNumber line 2"),
    ("SG_ S : 65536|1@1+", "3 BadNumber line 1"),
    ("SG_ S : 1|\n65536@1+", "3 BadNumber line 2"),
    ("SG_ S : 1|1@2+", "3 BadNumber line 1"),
    ("CM_ BO_ 4294967296 \"\";", "3 BadNumber line 1"),
    ("BA_ \"A\" SG_ 4294967296 S 1;", "3 BadNumber line 1"),
    ("VAL_ 4294967296 S;", "3 BadNumber line 1"),
    ("SIG_VALTYPE_ 1 S : 256;", "3 BadNumber line 1"),
    (
        "SG_MUL_VAL_ 1 S M 18446744073709551616-1;",
        "3 BadNumber line 1",
    ),
    ("SG_MUL_VAL_ 1 S M 0-1.5;", "3 BadNumber line 1"),
    (
        "BA_ \"A\" 1234567890123456789012345678E373;",
        "1 attribute A file number 1234567890123456789012345678e373;",
    ),
    (
        "BA_ \"A\" 12345678901234567890123456789;",
        "3 BadNumber line 1",
    ),
    ("BA_ \"A\" -1E401;", "3 BadNumber line 1"),
    // Other faults.
    ("BO_ 1 A: 8\n\n", "4 Unexpected line 3"),
    ("BO_ 1 2: 8 X", "4 Unexpected line 1"),
    ("BO_ 1e A: 8 X", "4 Unexpected line 1"),
    ("NS_ :", "1;"),
    ("BU_: A VAL_ B", "4 Unexpected line 1"),
    ("VERSION\n;", "1;2;"),
    ("VERSION\n1", "4 Unexpected line 2"),
    (
        "SG_ S : 1|1@1+ (1,0) [0|0] \"\" X,\n",
        "4 Unexpected line 2",
    ),
    ("SG_ S\nm1 : 1|1@1+", "25 NotYet line 2"),
    ("VERSION\n\"a\\\"b\nc\"\n\"abc\n\n", "2 OpenString line 4"),
    ("VERSION \"a\\\\\" X", "2 OpenString line 1"),
    ("BU_: A\n %", "1 BadByte line 2"),
    ("BU_: A\u{B}", "1 BadByte line 1"),
    ("\u{FEFF}\u{FEFF}BU_:", "1 BadByte line 1"),
    ("BO_ 1. .", "1 BadByte line 1"),
];

/// A message with a signal of one bit, and a signed one of eight.
const TWO_SIGNALS: &str = "BO_ 496 A: 8 X
 SG_ S : 0|1@1+ (1,0) [0|0] \"\" X
 SG_ T : 8|8@0- (0.5,1) [-1|0] \"km\" X
";

/// Messages and signals, and what stands where in them.
const LAYOUTS: Rows = &[
    ("", ""),
    (
        TWO_SIGNALS,
        "1 A standard 496 8;2 S 0|1 intel unsigned 1e0 0e0;3 T 8|8 motorola signed 5e-1 1e0 from -1e0 to 0e0 in km;",
    ),
    // The signals of a message stand behind it, up to the next one.
    (
        "VERSION
BO_ 291 Ping: 2 X
BO_ 3221225472 VECTOR__INDEPENDENT_SIG_MSG: 0 X
SG_ U : 0|1@1+ (1,0) [0|0] \"\"

BO_ 2147483649 Pong: 8 X
CM_ \"\";
SG_ V : 0|1@1+ (1,0) [0|0] \"\"
",
        "2 Ping standard 291 2;6 Pong extended 1 8;8 V 0|1 intel unsigned 1e0 0e0;",
    ),
    (
        "VERSION SG_ V : 0|1@1+ (1,0) [0|0] \"\" BO_ 1 A: 8 X",
        "6 LateSignal line 1",
    ),
    // Two limits that are zero are none, however they are written.
    (
        "BO_ 1 A: 8 X
SG_ S : 0|1@1+ (0,-1) [0.0|-0] \"\"
SG_ T : 0|1@1+ (1,0) [1|0] \"\"
SG_ U : 0|1@1+ (1,0) [0|2] \"\"
",
        "1 A standard 1 8;2 S 0|1 intel unsigned 0e0 -1e0;3 T 0|1 intel unsigned 1e0 0e0 from 1e0 to 0e0;4 U 0|1 intel unsigned 1e0 0e0 from 0e0 to 2e0;",
    ),
];

/// Statements behind `TWO_SIGNALS`, with what the message and the signals then have.
const FACTS: Rows = &[
    ("", "A;S;T;"),
    // Choices are raw values of their signal, and those of the last statement.
    ("VAL_ 496 S 1 \"A\" 0 \"A\" 7 \"B\" ;", "A;S 1=A 0=A;T;"),
    (
        "VAL_ 496 S -1 \"A\" 2 \"B\" 0.5 \"C\" 1.0 \"D\" ;",
        "A;S 1=D;T;",
    ),
    (
        "VAL_ 496 T -128 \"A\" -129 \"B\" 127 \"C\" 128 \"D\" 1E1 \"E\" ;",
        "A;S;T -128=A 127=C 10=E;",
    ),
    ("VAL_ 496 S 1 \"A\" ; VAL_ 496 S ;", "A;S;T;"),
    ("VAL_ 496 S 1 \"A\" ; VAL_ 496 S 0 \"B\" ;", "A;S 0=B;T;"),
    ("VAL_ S 1 \"A\" ; VAL_ 2147484144 S 1 \"A\" ;", "A;S;T;"),
    // Long names, which other statements do not know.
    (
        "BA_ \"SystemSignalLongSymbol\" SG_ 496 S \"EnableOfPump\"; VAL_ 496 S 1 \"A\" ; VAL_ 496 EnableOfPump 0 \"B\" ;",
        "A;EnableOfPump 1=A;T;",
    ),
    ("BA_ \"SystemSignalLongSymbol\" SG_ 496 S \"\";", "A;S;T;"),
    ("BA_ \"SystemSignalLongSymbol\" SG_ 496 S 5;", "A;S;T;"),
    ("BA_DEF_DEF_ \"SystemSignalLongSymbol\" B;", "A;S;T;"),
    (
        "BA_DEF_DEF_ \"SystemSignalLongSymbol\" \"B\"; BA_ \"SystemSignalLongSymbol\" SG_ 496 T \"\";",
        "A;B;T;",
    ),
    ("BA_ \"SystemMessageLongSymbol\" BO_ 496 \"B\";", "B;S;T;"),
    (
        "BA_ \"SystemMessageLongSymbol\" BO_ 496 \"VECTOR__INDEPENDENT_SIG_MSG\";",
        "",
    ),
    // The last value of a message counts, or else the last default, where it is whole and fits.
    (
        "BA_ \"GenMsgCycleTime\" BO_ 496 100; BA_ \"GenMsgCycleTime\" BO_ 496 20;",
        "A every 20;S;T;",
    ),
    (
        "BA_DEF_DEF_ \"GenMsgCycleTime\" 50; BA_ \"GenMsgCycleTime\" BO_ 497 0; BA_ \"GenMsgCycleTime\" 1;",
        "A every 50;S;T;",
    ),
    (
        "BA_ \"GenMsgCycleTime\" BO_ 496 20; BA_DEF_DEF_ \"GenMsgCycleTime\" 50;",
        "A every 20;S;T;",
    ),
    (
        "BA_DEF_DEF_ \"GenMsgCycleTime\" 50; BA_DEF_DEF_ \"GenMsgCycleTime\" 60;",
        "A every 60;S;T;",
    ),
    (
        "BA_DEF_DEF_ \"GenMsgCycleTime\" 50; BA_ \"GenMsgCycleTime\" BO_ 496 0;",
        "A;S;T;",
    ),
    (
        "BA_DEF_DEF_ \"GenMsgCycleTime\" 50; BA_ \"GenMsgCycleTime\" BO_ 496 \"20\";",
        "A;S;T;",
    ),
    ("BA_ \"GenMsgCycleTime\" BO_ 496 1.5;", "A;S;T;"),
    ("BA_ \"GenMsgCycleTime\" BO_ 496 -5;", "A;S;T;"),
    (
        "BA_ \"GenMsgCycleTime\" BO_ 496 4294967295;",
        "A every 4294967295;S;T;",
    ),
    ("BA_ \"GenMsgCycleTime\" BO_ 496 4294967296;", "A;S;T;"),
    // Start values are whole and raw values.
    (
        "BA_DEF_DEF_ \"GenSigStartValue\" 1.0; BA_ \"GenSigStartValue\" SG_ 496 T -128;",
        "A;S start 1;T start -128;",
    ),
    (
        "BA_DEF_DEF_ \"GenSigStartValue\" 2; BA_ \"GenSigStartValue\" SG_ 496 T 128;",
        "A;S;T;",
    ),
    (
        "BA_DEF_DEF_ \"GenSigStartValue\" 1E1; BA_ \"GenSigStartValue\" SG_ 496 S 0.5;",
        "A;S;T start 10;",
    ),
    // Types of values.
    (
        "SIG_VALTYPE_ 496 S : 1; SIG_VALTYPE_ 496 T 2;",
        "A;S float;T float;",
    ),
    (
        "SIG_VALTYPE_ 496 S : 1; SIG_VALTYPE_ 496 S : 3; SIG_VALTYPE_ 497 T : 1;",
        "A;S;T;",
    ),
    // Comments.
    (
        "CM_ BO_ 496 \"a\"; CM_ BO_ 496 \"b\nc\"; CM_ SG_ 496 T \"d\"; CM_ SG_ 497 S \"e\"; CM_ \"f\";",
        "A says b\nc;S;T says d;",
    ),
    // Each message of one id and each signal of one name gets them.
    (
        "SG_ S : 9|2@1+ (1,0) [0|0] \"\" BO_ 496 B: 8 X SG_ S : 0|8@1- (1,0) [0|0] \"\"
VAL_ 496 S 2 \"A\" -1 \"B\" ; CM_ BO_ 496 \"a\"; CM_ SG_ 496 S \"b\";",
        "A says a;S says b;T;S 2=A says b;B says a;S 2=A -1=B says b;",
    ),
    // Bit 31 belongs to the id.
    (
        "BO_ 2147484144 B: 8 X SG_ S : 0|8@1- (1,0) [0|0] \"\"
CM_ BO_ 2147484144 \"a\"; BA_ \"GenMsgCycleTime\" BO_ 2147484144 7; CM_ SG_ 496 S \"b\";",
        "A;S says b;T;B every 7 says a;S;",
    ),
    // A signal of no bits or of more than 64 has no raw values.
    (
        "SG_ U : 0|0@1+ (1,0) [0|0] \"\" SG_ V : 0|65@1- (1,0) [0|0] \"\" SG_ W : 0|64@1+ (1,0) [0|0] \"\"
VAL_ 496 U 0 \"A\" ; VAL_ 496 V 0 \"A\" ; VAL_ 496 W 18446744073709551616 \"A\" 18446744073709551615 \"B\" ;
BA_DEF_DEF_ \"GenSigStartValue\" 0;",
        "A;S start 0;T start 0;U;V;W start 0 18446744073709551615=B;",
    ),
];

/// Texts, and what `read_dbc` and `check` answer.
const READ: Rows = &[
    ("BO_ 1 A: 8 X", "1 A standard 1 8;"),
    ("BO_ 1 A:\n", "4 Unexpected line 2"),
    ("\nSG_ S : 0|1@1+ (1,0) [0|0] \"\"", "6 LateSignal line 2"),
    ("BO_ 1 A: 8 X\nBO_ 2048 B: 8 X", "13 FrameIdRange line 2 B "),
    (
        "BO_ 1 A: 0 X\nSG_ S : 0|1@1+ (1,0) [0|0] \"\"",
        "16 SignalOutside line 2 A S",
    ),
];

/// The bytes as text.
fn shown(text: &Text) -> &str {
    str::from_utf8(text.bytes()).unwrap_or("?")
}

fn put_decimal(out: &mut String, before: &str, number: &Decimal) -> Result<(), Fail> {
    let Decimal {
        mantissa,
        exponent,
        ..
    } = number;
    Ok(write!(out, " {before}{mantissa}e{exponent}")?)
}

fn put_owner(out: &mut String, owner: &Owner) -> Result<(), Fail> {
    match owner {
        Owner::None => write!(out, " file")?,
        Owner::Node(name) => write!(out, " node {}", shown(name))?,
        Owner::Message(id) => write!(out, " message {id}")?,
        Owner::Signal(id, name) => write!(out, " signal {id} {}", shown(name))?,
        Owner::Variable(name) => write!(out, " variable {}", shown(name))?,
    }
    Ok(())
}

fn put_value(out: &mut String, value: &Value) -> Result<(), Fail> {
    match value {
        Value::Number(number) => put_decimal(out, "number ", number)?,
        Value::String(text) => write!(out, " string {}", shown(text))?,
        Value::Word(text) => write!(out, " word {}", shown(text))?,
    }
    Ok(())
}

/// Where a signal stands and how its bits are read.
fn put_bits(
    out: &mut String,
    start: u32,
    length: u32,
    motorola: bool,
    signed: bool,
) -> Result<(), Fail> {
    let order = if motorola { "motorola" } else { "intel" };
    let sign = if signed { "signed" } else { "unsigned" };
    Ok(write!(out, " {start}|{length} {order} {sign}")?)
}

fn put_body(out: &mut String, body: &Body) -> Result<(), Fail> {
    match body {
        Body::Message { id, name, length } => {
            write!(out, " message {id} {} {length}", shown(name))?;
        }
        Body::Signal {
            name,
            start,
            length,
            motorola,
            signed,
            factor,
            offset,
            min,
            max,
            unit,
            receivers,
        } => {
            write!(out, " signal {}", shown(name))?;
            put_bits(out, *start, *length, *motorola, *signed)?;
            for number in [factor, offset, min, max] {
                put_decimal(out, "", number)?;
            }
            write!(out, " {}", shown(unit))?;
            for receiver in receivers.items() {
                write!(out, " {}", shown(receiver))?;
            }
        }
        Body::Comment { target, text } => {
            write!(out, " comment")?;
            put_owner(out, target)?;
            write!(out, " {}", shown(text))?;
        }
        Body::Default { name, value } => {
            write!(out, " default {}", shown(name))?;
            put_value(out, value)?;
        }
        Body::Attribute {
            name,
            target,
            value,
        } => {
            write!(out, " attribute {}", shown(name))?;
            put_owner(out, target)?;
            put_value(out, value)?;
        }
        Body::Choices { id, name, pairs } => {
            write!(out, " choices")?;
            if let Some(id) = id {
                write!(out, " {id}")?;
            }
            write!(out, " {}", shown(name))?;
            for pair in pairs.items() {
                put_decimal(out, "", &pair.value)?;
                write!(out, " {}", shown(&pair.text))?;
            }
        }
        Body::ValueType { id, name, number } => {
            write!(out, " type {id} {} {number}", shown(name))?;
        }
        Body::Ranges {
            id,
            child,
            selector,
            ranges,
        } => {
            write!(out, " ranges {id} {} {}", shown(child), shown(selector))?;
            for range in ranges.items() {
                write!(out, " {}-{}", range.first, range.last)?;
            }
        }
        Body::Skipped => {}
    }
    Ok(())
}

fn put_statements(out: &mut String, list: &[Statement]) -> Result<(), Fail> {
    for statement in list {
        write!(out, "{}", statement.line)?;
        put_body(out, &statement.body)?;
        write!(out, ";")?;
    }
    Ok(())
}

fn put_layouts(out: &mut String, database: &Database) -> Result<(), Fail> {
    for message in database.messages.items() {
        let kind = if message.extended {
            "extended"
        } else {
            "standard"
        };
        let name = shown(&message.name);
        write!(
            out,
            "{} {name} {kind} {} {};",
            message.line, message.id, message.length
        )?;
        for signal in message.signals.items() {
            put_layout(out, signal)?;
        }
    }
    Ok(())
}

fn put_layout(out: &mut String, signal: &Signal) -> Result<(), Fail> {
    write!(out, "{} {}", signal.line, shown(&signal.name))?;
    put_bits(
        out,
        signal.start,
        signal.length,
        signal.motorola,
        signal.signed,
    )?;
    put_decimal(out, "", &signal.factor)?;
    put_decimal(out, "", &signal.offset)?;
    if let Some(min) = &signal.min {
        put_decimal(out, "from ", min)?;
    }
    if let Some(max) = &signal.max {
        put_decimal(out, "to ", max)?;
    }
    if !signal.unit.bytes().is_empty() {
        write!(out, " in {}", shown(&signal.unit))?;
    }
    Ok(write!(out, ";")?)
}

fn put_comment(out: &mut String, comment: &Text) -> Result<(), Fail> {
    if !comment.bytes().is_empty() {
        write!(out, " says {}", shown(comment))?;
    }
    Ok(write!(out, ";")?)
}

fn put_facts(out: &mut String, database: &Database) -> Result<(), Fail> {
    for message in database.messages.items() {
        write!(out, "{}", shown(&message.name))?;
        if let Some(cycle) = message.cycle {
            write!(out, " every {cycle}")?;
        }
        put_comment(out, &message.comment)?;
        for signal in message.signals.items() {
            put_signal_facts(out, signal)?;
        }
    }
    Ok(())
}

fn put_signal_facts(out: &mut String, signal: &Signal) -> Result<(), Fail> {
    write!(out, "{}", shown(&signal.name))?;
    if signal.is_float {
        write!(out, " float")?;
    }
    if let Some(initial) = signal.initial {
        write!(out, " start {initial}")?;
    }
    for choice in signal.choices.items() {
        write!(out, " {}={}", choice.value, shown(&choice.name))?;
    }
    put_comment(out, &signal.comment)
}

fn put_text_fault(out: &mut String, fault: TextFault) -> Result<(), Fail> {
    match fault {
        TextFault::Fault { kind, line } => {
            write!(out, "{} {} line {line}", kind.number(), kind.name())?;
        }
        TextFault::Memory => write!(out, "memory")?,
    }
    Ok(())
}

/// The statements of a text, or its first fault.
fn shown_statements(alloc: Global, text: &[u8]) -> Result<String, Fail> {
    let mut out = String::new(alloc);
    match statements(alloc, text) {
        Ok(list) => put_statements(&mut out, &list)?,
        Err(fault) => put_text_fault(&mut out, fault)?,
    }
    Ok(out)
}

#[test]
fn texts_have_their_statements(rt: HostRuntime) -> Result<(), Fail> {
    for &(text, wanted) in STATEMENTS {
        let found = shown_statements(rt.alloc(), text.as_bytes())?;
        assert_eq!(rt; found.as_str(), wanted, "of {text}");
    }
    Ok(())
}

#[test]
fn the_limit_is_exact(rt: HostRuntime) -> Result<(), Fail> {
    let blanks = vec![in rt.alloc(); b' '; TEXT_LIMIT + 1]?;
    let found = shown_statements(rt.alloc(), &blanks)?;
    assert_eq!(rt; found.as_str(), "5 TooLarge line 0");
    let found = shown_statements(rt.alloc(), &blanks[1..])?;
    assert_eq!(rt; found.as_str(), "");
    Ok(())
}

#[test]
fn statements_have_their_database(rt: HostRuntime) -> Result<(), Fail> {
    let alloc = rt.alloc();
    for &(text, wanted) in LAYOUTS {
        let mut found = String::new(alloc);
        match database(alloc, &statements(alloc, text.as_bytes())?) {
            Ok(database) => put_layouts(&mut found, &database)?,
            Err(fault) => put_text_fault(&mut found, fault)?,
        }
        assert_eq!(rt; found.as_str(), wanted, "of {text}");
    }
    for &(text, wanted) in FACTS {
        let whole = [TWO_SIGNALS, text].concat(alloc)?;
        let database = database(alloc, &statements(alloc, whole.as_bytes())?)?;
        let mut found = String::new(alloc);
        put_facts(&mut found, &database)?;
        assert_eq!(rt; found.as_str(), wanted, "of {text}");
    }
    Ok(())
}

/// What `read_dbc` answers.
fn shown_database(alloc: Global, text: &[u8]) -> Result<String, Fail> {
    let mut out = String::new(alloc);
    match read_dbc(alloc, text) {
        Ok(checked) => put_layouts(&mut out, checked.database())?,
        Err(DatabaseFault::Text { kind, line }) => {
            put_text_fault(&mut out, TextFault::Fault { kind, line })?;
        }
        Err(
            DatabaseFault::Check {
                kind,
                line,
                message,
                signal,
            },
        ) => {
            let (number, name) = (kind.number(), kind.name());
            let (message, signal) = (shown(&message), shown(&signal));
            write!(out, "{number} {name} line {line} {message} {signal}")?;
        }
        Err(DatabaseFault::Memory) => write!(out, "memory")?,
    }
    Ok(out)
}

#[test]
fn texts_have_a_valid_database(rt: HostRuntime) -> Result<(), Fail> {
    for &(text, wanted) in READ {
        let found = shown_database(rt.alloc(), text.as_bytes())?;
        assert_eq!(rt; found.as_str(), wanted, "of {text}");
    }
    Ok(())
}

/// What `check` answers: its first fault, or none.
fn shown_check(alloc: Global, text: &str) -> Result<String, Fail> {
    let mut out = String::new(alloc);
    let database = database(alloc, &statements(alloc, text.as_bytes())?)?;
    match check(alloc, database) {
        Ok(checked) => put_layouts(&mut out, checked.database())?,
        Err(
            CheckFault::Fault {
                kind,
                line,
                message,
                signal,
            },
        ) => write!(
            out,
            "{} {line} {} {}",
            kind.number(),
            shown(&message),
            shown(&signal)
        )?,
        Err(CheckFault::Memory) => write!(out, "memory")?,
    }
    Ok(out)
}

#[test]
fn databases_are_checked(rt: HostRuntime) -> Result<(), Fail> {
    let alloc = rt.alloc();
    let found = shown_check(alloc, "BO_ 1 A: 8 X")?;
    assert_eq!(rt; found.as_str(), "1 A standard 1 8;");
    let found = shown_check(alloc, "BO_ 1 A: 8 X\nSG_ S : 0|0@1+ (1,0) [0|0] \"\"")?;
    assert_eq!(rt; found.as_str(), "15 2 A S");
    Ok(())
}
