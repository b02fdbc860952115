// Values of keywords, as their table has them.
ghost use Rattle.parm_lex.specs.Spans.{IsPartOf};

use crate::{
    Kind, Value, ValueRefused, defaults, form_at, is_other_name, name_text, read_value, row_at,
};
use parm_lex::{ParmPart, lines};
use std::alloc::Global;
use std::process::Abort;

/// What a value holds: `n` and its numbers, or `t` and its texts, each with a semicolon behind it.
fn shown(rt: &impl Abort, alloc: Global, value: &Value) -> String {
    let mut text = String::new(alloc);
    match value {
        Value::Numbers(numbers) => {
            text.push('n').expect(rt, "memory");
            for number in numbers.as_slice() {
                write!(text, " {number};").expect(rt, "memory");
            }
        }
        Value::Texts(texts) => {
            text.push('t').expect(rt, "memory");
            for word in texts.as_slice() {
                write!(text, " {};", word).expect(rt, "memory");
            }
        }
    }
    text
}

/// The value that a part gives its keyword, or the fault.
fn part_shown(rt: &impl Abort, alloc: Global, kind: Kind, bytes: &[u8], part: &ParmPart) -> String
    requires { IsPartOf bytes.now part.now }
{
    let mut text = String::new(alloc);
    let word = part.word.bytes_in(bytes);
    match row_at(kind, word).and_then(|row| form_at(kind, row)) {
        Some(form) => match read_value(alloc, form, bytes, part.items.as_slice()) {
            Ok(value) => {
                let copy = value.copy(alloc).expect(rt, "memory");
                return shown(rt, alloc, &copy);
            }
            Err(ValueRefused::Fault(kind)) => write!(text, "{kind:?}").expect(rt, "memory"),
            Err(ValueRefused::NoMemory) => text.push_str("no memory").expect(rt, "memory"),
        },
        None => text.push_str("no keyword").expect(rt, "memory"),
    }
    text
}

/// The same of a line of one part.
fn line_shown(rt: &impl Abort, alloc: Global, kind: Kind, bytes: &[u8]) -> String {
    let mut text = String::new(alloc);
    let lines = lines(alloc, bytes).expect(rt, "a line");
    for line in &lines {
        for part in line.parts.as_slice() {
            let part = part_shown(rt, alloc, kind, bytes, part);
            text.push_str(part.as_str()).expect(rt, "memory");
        }
    }
    text
}

const NUMBERS: [(Kind, &[u8], &str); 33] = [
    (Kind::General, b"data_errors=10000", "n 10000;"),
    (Kind::General, b"data_errors=(10001)", "OutOfRange"),
    (Kind::General, b"journal_sectors=65536", "n 65536;"),
    (Kind::Hd, b"jvms=17", "OutOfRange"),
    (Kind::Sd, b"threads=00000000000000000007", "n 7;"),
    (Kind::Sd, b"threads=000000000000000000007", "BadNumber"),
    (Kind::Sd, b"threads=99999999999999999999", "OutOfRange"),
    (Kind::Sd, b"threads=(1,2)", "ValueCount"),
    (
        Kind::Sd,
        b"size=9223372036854775807",
        "n 9223372036854775807;",
    ),
    (Kind::Sd, b"size=8388608t", "OutOfRange"),
    (Kind::Sd, b"size=\"\"", "BadNumber"),
    (Kind::Sd, b"keyblock=1m", "n 1048576;"),
    (Kind::Sd, b"keyblock=1049088", "OutOfRange"),
    (Kind::Sd, b"keyblock=1000", "OutOfRange"),
    (Kind::Sd, b"keyblock=0", "OutOfRange"),
    (Kind::Sd, b"count=(1,64)", "n 1; 64;"),
    (Kind::Sd, b"count=1", "ValueCount"),
    (Kind::Sd, b"count=(x,65)", "BadNumber"),
    (Kind::Sd, b"count=(100001,x)", "OutOfRange"),
    (Kind::Wd, b"seekpct=rand", "n 100;"),
    (Kind::Wd, b"seekpct=seq", "n 0;"),
    (Kind::Wd, b"seekpct=101", "OutOfRange"),
    (Kind::Rd, b"elapsed=5M", "BadNumber"),
    (Kind::Rd, b"elapsed=5m", "n 300;"),
    (Kind::Rd, b"iorate=max", "n 0;"),
    (Kind::Rd, b"iorate=0", "OutOfRange"),
    (Kind::Rd, b"iorate=99999999999999999999", "OutOfRange"),
    (Kind::Rd, b"iorate=000000000000000000001", "BadChoice"),
    (Kind::Rd, b"forthreads=(1,257,x)", "OutOfRange"),
    (Kind::Rd, b"forxfersize=(4k,64K)", "n 4096; 65536;"),
    (Kind::Fsd, b"sizes=(4k,50,8k,50)", "n 4096; 50; 8192; 50;"),
    (Kind::Fsd, b"sizes=(4k,x,8k)", "ValueCount"),
    (Kind::Fsd, b"sizes=64k", "n 65536;"),
];

const TEXTS: [(Kind, &[u8], &str); 21] = [
    (
        Kind::General,
        b"validate=(no_preread,read_after_write)",
        "t no_preread; read_after_write;",
    ),
    (Kind::General, b"validate=(yes,no)", "BadChoice"),
    (Kind::General, b"messagescan=(yes,no)", "ValueCount"),
    (Kind::Hd, b"system=\"\"", "t ;"),
    (Kind::Sd, b"lun=\"/d/a b\"", "t /d/a b;"),
    (Kind::Sd, b"lun=\"\"", "BadChoice"),
    (
        Kind::Sd,
        b"openflags=(o_direct,fsync)",
        "t o_direct; fsync;",
    ),
    (Kind::Sd, b"sd=sd1", "no keyword"),
    (Kind::Wd, b"sd=(abcdefgh*,*)", "t abcdefgh*; *;"),
    (Kind::Wd, b"sd=(sd1,abcdefghi*)", "BadName"),
    (Kind::Wd, b"sd=a-b", "BadName"),
    (Kind::Wd, b"sd=**", "BadName"),
    (Kind::Wd, b"sd=\"\"", "BadName"),
    (Kind::Rd, b"wd=a-b.c_9*", "t a-b.c_9*;"),
    (Kind::Rd, b"wd=a/b", "BadName"),
    (Kind::Rd, b"format=only", "t only;"),
    (Kind::Rd, b"format=Only", "BadChoice"),
    (Kind::Fsd, b"shared=yes", "BadChoice"),
    (Kind::Fsd, b"distribution=all", "t all;"),
    (Kind::Fwd, b"operation=write", "t write;"),
    (Kind::Fwd, b"fileio=sequential", "t sequential;"),
];

#[test]
fn values_are_read(rt: HostRuntime) {
    for (kind, line, wanted) in NUMBERS {
        assert_eq!(rt; line_shown(&rt, rt.alloc(), kind, line).as_str(), wanted);
    }
    for (kind, line, wanted) in TEXTS {
        assert_eq!(rt; line_shown(&rt, rt.alloc(), kind, line).as_str(), wanted);
    }
}

const DEFAULTS: [(Kind, &str); 7] = [
    (Kind::General, "t no;n 50;n 4096;t no;t yes;"),
    (Kind::Hd, "n 1;t ;tt ;t ;"),
    (Kind::Sd, "nt *;tnttnn 8;"),
    (Kind::Wd, "t *;n 100;tn 100;nn 4096;"),
    (Kind::Rd, "n 30;t no;nnntn 0;n 1;n 0;tn 4294967295;t"),
    (Kind::Fsd, "tnnt bottom;ntntt no;nn"),
    (
        Kind::Fwd,
        "t sequential;t sequential;tt *;t read;nnn 1;n 4096;",
    ),
];

#[test]
fn defaults_are_those_of_the_tables(rt: HostRuntime) {
    let alloc = rt.alloc();
    for (kind, wanted) in DEFAULTS {
        let mut text = String::new(alloc);
        let values = defaults(alloc, kind).expect(&rt, "memory");
        for value in &values {
            text.push_str(shown(&rt, alloc, value).as_str())
                .expect(&rt, "memory");
        }
        assert_eq!(rt; text.as_str(), wanted);
    }
}

#[test]
fn values_are_looked_into(rt: HostRuntime) {
    let alloc = rt.alloc();
    let values = defaults(alloc, Kind::Sd).expect(&rt, "memory");
    let [count, host, .., threads] = values.as_slice() else {
        return assert!(rt; false);
    };
    assert!(rt; threads.only_number() == Some(8));
    assert!(rt; host.only_number().is_none());
    assert!(rt; host.only_text().is_some_and(|text| text.as_str() == "*"));
    assert!(rt; count.numbers().is_empty() && count.texts().is_empty());
    assert!(rt; is_other_name(b"abcdefghijklmnopqrstuvwxyz012345"));
    assert!(rt; !is_other_name(b"abcdefghijklmnopqrstuvwxyz0123456"));
    let bytes = b"sd=sd1".as_slice();
    let lines = lines(alloc, bytes).expect(&rt, "a line");
    for line in &lines {
        for part in line.parts.as_slice() {
            let word = name_text(alloc, bytes, &part.word).expect(&rt, "memory");
            assert_eq!(rt; word.as_str(), "sd");
        }
    }
}
