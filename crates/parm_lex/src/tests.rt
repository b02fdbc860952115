// Files with what is read of them, and the faults of files.
use crate::{LexRefused, Span, lines};
use std::alloc::Global;
use std::process::Abort;

fn piece<'a>(bytes: &'a [u8], span: Span) -> &'a str {
    let at = span.at as usize;
    match bytes.get(at..at + span.len as usize) {
        Some(piece) => std::str::from_utf8(piece).unwrap_or("?"),
        None => "?",
    }
}

/// What is read of a file: each definition in brackets, each part with its line; or the fault.
fn shown(rt: &impl Abort, alloc: Global, bytes: &[u8]) -> String {
    let mut text = String::new(alloc);
    match lines(alloc, bytes) {
        Ok(lines) => {
            for line in &lines {
                write!(text, "[{}", line.line).expect(rt, "memory");
                for part in line.parts.as_slice() {
                    write!(text, " {} {}=", part.line, piece(bytes, part.word)).expect(
                        rt, "memory",
                    );
                    if part.listed {
                        text.push('(').expect(rt, "memory");
                    }
                    for item in part.items.as_slice() {
                        write!(text, "{};", piece(bytes, *item)).expect(rt, "memory");
                    }
                }
                text.push(']').expect(rt, "memory");
            }
        }
        Err(LexRefused::Fault(fault)) => {
            write!(text, "{} {} {:?}", fault.line, fault.column, fault.why).expect(rt, "memory");
        }
        Err(LexRefused::NoMemory) => text.push_str("no memory").expect(rt, "memory"),
    }
    text
}

const READ: [(&[u8], &str); 11] = [
    (b"", ""),
    (b"\n \t\n# c\n* c\n / c\r\n \r", ""),
    (
        b"sd=sd1,lun=\"/d/a b\",size=64k",
        "[1 1 sd=sd1; 1 lun=/d/a b; 1 size=64k;]",
    ),
    (b"sd=a ,lun=b", "[1 1 sd=a;]"),
    (b"sd=a ,\nwd=b", "[1 1 sd=a;][2 2 wd=b;]"),
    (
        b"sd=sd1,\n# c\n lun=b , x\n\nrd=r,forthreads=( 1 ,2,\t3 ) note\n",
        "[1 1 sd=sd1; 3 lun=b;][5 5 rd=r; 5 forthreads=(1;2;3;]",
    ),
    (b"sd=\"\"", "[1 1 sd=;]"),
    (b"sd=a,\t \r\nlun=b\r\n", "[1 1 sd=a; 2 lun=b;]"),
    (b"sd=a=b", "[1 1 sd=a=b;]"),
    (b"_9=~#", "[1 1 _9=~#;]"),
    (b"sd=a \x01\xff,", "[1 1 sd=a;]"),
];

const REFUSED: [(&[u8], &str); 21] = [
    (b"sd=", "1 4 EmptyValue"),
    (b"sd=((a))", "1 5 EmptyValue"),
    (b"sd=()", "1 5 EmptyValue"),
    (b"sd=(a,)", "1 7 EmptyValue"),
    (b"sd= a", "1 4 EmptyValue"),
    (b"sd=(sd1", "1 8 UnclosedParen"),
    (b"sd=\"sd1", "1 8 UnclosedQuote"),
    (b"sd=\"a\tb\"", "1 6 UnclosedQuote"),
    (b"sd=sd1,", "1 8 OpenEnd"),
    (b"sd=sd1,  \r\n# c\n\n", "1 10 OpenEnd"),
    (b"sd=\x80", "1 4 BadByte"),
    (b"sd=a\x7f", "1 5 BadByte"),
    (b"\r\r\n", "1 1 BadByte"),
    (b"sd=sd1,,lun=/d/a", "1 8 EmptyPart"),
    (b"sd=a, # c", "1 7 EmptyPart"),
    (b"sd=a \x01,\n=b", "2 1 EmptyPart"),
    (b"sd=a, note", "1 11 MissingEquals"),
    (b"sd = a", "1 3 MissingEquals"),
    (b"sd=a\"b", "1 5 AfterValue"),
    (b"sd=(a b)", "1 7 AfterValue"),
    (b"# c\n\nsd=a\nwd=b,\n sd=,\nwd", "5 5 EmptyValue"),
];

#[test]
fn files_are_read(rt: HostRuntime) {
    for (bytes, wanted) in READ {
        assert_eq!(rt; shown(&rt, rt.alloc(), bytes).as_str(), wanted);
    }
    for (bytes, wanted) in REFUSED {
        assert_eq!(rt; shown(&rt, rt.alloc(), bytes).as_str(), wanted);
    }
}

fn filled(
    rt: &impl Abort,
    alloc: Global,
    front: &[u8],
    byte: u8,
    many: usize,
    back: &[u8],
) -> Vec<u8> {
    let mut bytes = Vec::from_slice(alloc, front).expect(rt, "memory");
    for _i in 0..many {
        bytes.push(byte).expect(rt, "memory");
    }
    bytes.extend_from_slice(back).expect(rt, "memory");
    bytes
}

#[test]
fn long_files_are_refused(rt: HostRuntime) {
    let alloc = rt.alloc();
    for (front, byte, many, back, wanted) in [
        (b"".as_slice(), b'\n', 1_048_576, b"".as_slice(), ""),
        (
            b"".as_slice(),
            b'\n',
            1_048_577,
            b"".as_slice(),
            "0 0 FileTooLong",
        ),
        (
            b"sd=a\n".as_slice(),
            b'#',
            4096,
            b"\r\nwd=b".as_slice(),
            "[1 1 sd=a;][3 3 wd=b;]",
        ),
        (
            b"".as_slice(),
            b'#',
            4097,
            b"".as_slice(),
            "1 4097 LineTooLong",
        ),
        (
            b"sd=\n".as_slice(),
            b'#',
            4097,
            b"".as_slice(),
            "1 4 EmptyValue",
        ),
        (
            b"sd=a,\n".as_slice(),
            b'#',
            4097,
            b"".as_slice(),
            "1 6 OpenEnd",
        ),
        (
            b"sd=a,\n".as_slice(),
            b'#',
            4097,
            b"\nlun=b".as_slice(),
            "2 4097 LineTooLong",
        ),
        (
            b"wd=".as_slice(),
            b'=',
            4094,
            b"".as_slice(),
            "1 4097 LineTooLong",
        ),
    ] {
        let bytes = filled(&rt, alloc, front, byte, many, back);
        assert_eq!(rt; shown(&rt, alloc, &bytes).as_str(), wanted);
    }
}
