// The words of a command, and the parameter file that they name.
use crate::setting::{NOTHING, RECOVER, STORE, created, expect, yard, yard_of};

const USAGE: &str =
    "usage: vdbench -f file [-s or -v or -vr or -j or -jr or -jro] [-o dir], or vdbench -sim n\nstatus 4\n";

/// Words that are no command: a file is missing or named twice, a group stands twice, a name begins with `-` or is empty, a word is
/// unknown, a number is none or too great.
const NO_COMMANDS: [&str; 31] = [
    "",
    "-s",
    "-jro",
    "-f",
    "-jro -f",
    "-jro -f -p",
    "-jro -f p p",
    "-jro -f p -f q",
    "-jro -fp -fq",
    "-s -jro -f p",
    "-s -s -f p",
    "-j -jr -f p",
    "-jr",
    "-jr -f",
    "-jr -jro -f p",
    "-s -v -vr -f p",
    "-s -f p -o",
    "-s -f p -o -x",
    "-s -f p -o a -ob",
    "-jro p",
    "-s -f p x",
    "--help",
    "--version",
    "-sim",
    "-sim x",
    "-sim -1",
    "-sim 1000001",
    "-sim 000000000000000000001",
    "-sim 1 2",
    "-sim 1 -f p",
    "-s -sim 1",
];

/// Words that ask for the same: the stores of p are looked at.
const LOOKS: [&str; 9] = [
    RECOVER,
    "-f p -jro",
    "-jro -fp",
    "-fp -jro",
    "-jro -f p -o out",
    "-oout -jro -f p",
    "-o out -fp -jro",
    "-v -jro -f p",
    "-jro -fp -vr",
];

/// Words that ask for the plan of p.
const SHOWS: [&str; 5] = [
    "-s -f p",
    "-fp -s",
    "-s -vr -f p",
    "-v -fp -s",
    "-s -oout -fp",
];

const PLAN: &str =
    "store sd1 lun /d/a blocks 16 of 4096 threads 8 journal sd1.jnl\nrun 1 rd1 iorate max elapsed 30 interval 1 turns 4294967295 format no slaves 1 workers 8\nshare wd1 sd1 xfersize 4096 rdpct 100 seekpct 100 weight 100\nstatus 0\n";

/// Schedules and their counts.
const SCHEDULES: [(&str, &str); 4] = [
    (
        "-sim 0",
        "sim 0 taken 0 idle 0 ends 0 stops 0 wrong 0\nstatus 0\n",
    ),
    (
        "-sim 1",
        "sim 1 taken 1 idle 0 ends 0 stops 0 wrong 0\nstatus 0\n",
    ),
    (
        "-sim 00000000000000000001",
        "sim 1 taken 1 idle 0 ends 0 stops 0 wrong 0\nstatus 0\n",
    ),
    (
        "-sim 100",
        "sim 100 taken 29 idle 71 ends 0 stops 0 wrong 0\nstatus 0\n",
    ),
];

#[test]
fn usage(rt: HostRuntime) {
    let alloc = rt.alloc();
    let sectors = created(&rt, alloc, STORE);
    let mut yard = yard(&rt, alloc, sectors, Vec::new(alloc));
    for line in NO_COMMANDS {
        expect(&rt, alloc, line, line, &mut yard, USAGE, 4);
    }
}

#[test]
fn words_in_any_order(rt: HostRuntime) {
    let alloc = rt.alloc();
    let sectors = created(&rt, alloc, STORE);
    let mut yard = yard(&rt, alloc, sectors, Vec::new(alloc));
    // many over one yard: each command gives everything back
    for line in LOOKS {
        expect(&rt, alloc, line, line, &mut yard, NOTHING, 0);
    }
    for line in SHOWS {
        expect(&rt, alloc, line, line, &mut yard, PLAN, 0);
    }
}

#[test]
fn schedules(rt: HostRuntime) {
    let alloc = rt.alloc();
    let mut yard = yard_of(&rt, alloc, b"");
    for (line, wanted) in SCHEDULES {
        expect(&rt, alloc, line, line, &mut yard, wanted, 0);
    }
}

#[test]
fn names_of_files(rt: HostRuntime) {
    let alloc = rt.alloc();
    let mut yard = yard_of(&rt, alloc, b"");
    for (line, wanted) in [
        ("-jro -f q", "cannot open q\nstatus 12\n"),
        ("-s -fq", "cannot open q\nstatus 12\n"),
        ("-s -f-x", "cannot open -x\nstatus 12\n"),
        ("-s -f-fp", "cannot open -fp\nstatus 12\n"),
    ] {
        expect(&rt, alloc, line, line, &mut yard, wanted, 12);
    }
}
