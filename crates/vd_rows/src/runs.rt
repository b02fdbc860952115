// Runs of a plan without journals: what they print, and what they leave in the data.
use crate::setting::{Stamped, data, expect, expect_at, text, yard_of};
use std::alloc::Global;
use std::process::Abort;
use std::sync::atomic::{AtomicBool, Ordering};
use vd_outside::Turnstile;
use vd_yard::MemYard;

/// A store of 16 blocks of 4,096 bytes that one worker writes from its first block on, in four turns.
const FOUR: &str =
    "sd=sd1,lun=/d/a,size=64k,threads=1\nwd=wd1,sd=sd1,xfersize=4k,rdpct=0,seekpct=0\nrd=rd1,wd=wd1,turns=4\n";

/// The same for two workers of two turns each.
const TWO_WORKERS: &str =
    "sd=sd1,lun=/d/a,size=64k,threads=2\nwd=wd1,sd=sd1,xfersize=4k,rdpct=0,seekpct=0\nrd=rd1,wd=wd1,turns=2\n";

/// A store of two blocks and three turns, of which the third comes to a block that was written.
const THREE: &str =
    "sd=sd1,lun=/d/a,size=8k,threads=1\nwd=wd1,sd=sd1,xfersize=4k,rdpct=0,seekpct=0\nrd=rd1,wd=wd1,turns=3\n";

const FOUR_WRITES: &str =
    "run 1 rd1\ninterval 1 reads 0 writes 4 bytes 16384 micros 0\nslave 1 workers 1 turns 4\ntotal sd1 turns 4 reads 0 prereads 0 rereads 0 writes 4 busy 0 badskip 0 bytes 16384 faults 0 corrupt 0\nstatus 0\n";

const FOUR_REREAD: &str =
    "run 1 rd1\ninterval 1 reads 0 writes 4 bytes 32768 micros 0\nslave 1 workers 1 turns 4\ntotal sd1 turns 4 reads 0 prereads 0 rereads 4 writes 4 busy 0 badskip 0 bytes 32768 faults 0 corrupt 0\nstatus 0\n";

const TWO_BY_TWO: &str =
    "run 1 rd1\ninterval 1 reads 0 writes 4 bytes 16384 micros 0\nslave 1 workers 2 turns 4\ntotal sd1 turns 4 reads 0 prereads 0 rereads 0 writes 4 busy 0 badskip 0 bytes 16384 faults 0 corrupt 0\nstatus 0\n";

const TORN: &str =
    "run 1 rd1\nwritefault sd1 block 0\ninterval 1 reads 0 writes 2 bytes 12288 micros 0\nslave 1 workers 1 turns 3\ntotal sd1 turns 3 reads 0 prereads 1 rereads 0 writes 2 busy 0 badskip 0 bytes 12288 faults 1 corrupt 0\nstatus 2\n";

/// The first four blocks at key 1.
const FIRST_FOUR: &[Stamped] = &[(0, 0, 8, 1), (1, 0, 8, 1), (2, 0, 8, 1), (3, 0, 8, 1)];

/// The first two blocks of each half at key 1.
const TWO_OF_EACH: &[Stamped] = &[(0, 0, 8, 1), (1, 0, 8, 1), (8, 0, 8, 1), (9, 0, 8, 1)];

/// Words that ask for the runs of p, and whether what is written is read again.
const RUNS: [(&str, bool); 8] = [
    ("-v -f p", false),
    ("-f p", false),
    ("-fp -v", false),
    ("-fp -o out", false),
    ("-vr -f p", true),
    ("-fp -vr", true),
    ("-vr -fp -oout", true),
    ("-o out -vr -f p", true),
];

/// Words that ask for the runs of a file that isn't there.
const NO_FILE: [&str; 4] = ["-f q", "-v -fq", "-vr -f q", "-fq -o out"];

/// A yard with this parameter file, p, and a store's data: so many bytes of zeros. The calls that are listed fail.
fn over(
    rt: &impl Abort,
    alloc: Global,
    file: &str,
    bytes: usize,
    failing: &[(u32, u64, u32)],
) -> MemYard {
    let mut yard = yard_of(rt, alloc, file.as_bytes());
    let zeros = vec![in alloc; 0u8; bytes].expect(rt, "memory");
    let calls = Vec::from_slice(alloc, failing).expect(rt, "memory");
    yard.put_data(text(rt, alloc, "/d/a"), zeros, calls)
        .expect(rt, "memory");
    yard
}

/// Fails where the store's data isn't zeros but for these images.
fn holds(rt: &impl Abort, alloc: Global, yard: &MemYard, images: &[Stamped]) {
    let kept = yard.bytes_at(&text(rt, alloc, "/d/a")).expect(rt, "memory");
    let wanted = data(rt, alloc, 0, images);
    match kept {
        Some(bytes) => assert!(rt; bytes.as_slice() == wanted.as_slice(), "other data"),
        None => assert!(rt; false, "no data"),
    }
}

#[test]
fn no_parameter_file(rt: HostRuntime) {
    let alloc = rt.alloc();
    let mut yard = yard_of(&rt, alloc, b"");
    for line in NO_FILE {
        let wanted = "cannot open q\nstatus 12\n";
        expect(&rt, alloc, line, line, &mut yard, wanted, 12);
    }
}

#[test]
fn a_refused_parameter_file(rt: HostRuntime) {
    let alloc = rt.alloc();
    let mut yard = over(
        &rt,
        alloc,
        "sd=sd1,lun=/d/a,size=64k,hitarea=1m\n",
        65536,
        &[],
    );
    let wanted = "parameter line 1: unknown keyword\nstatus 3\n";
    for (line, _) in RUNS {
        expect(&rt, alloc, line, line, &mut yard, wanted, 3);
    }
    holds(&rt, alloc, &yard, &[]);
}

#[test]
fn four_writes(rt: HostRuntime) {
    let alloc = rt.alloc();
    for (line, again) in RUNS {
        let mut yard = over(&rt, alloc, FOUR, 65536, &[]);
        let wanted = if again { FOUR_REREAD } else { FOUR_WRITES };
        expect(&rt, alloc, line, line, &mut yard, wanted, 0);
        holds(&rt, alloc, &yard, FIRST_FOUR);
    }
}

#[test]
fn two_workers(rt: HostRuntime) {
    let alloc = rt.alloc();
    let mut yard = over(&rt, alloc, TWO_WORKERS, 65536, &[]);
    expect(
        &rt,
        alloc,
        "two workers",
        "-v -f p",
        &mut yard,
        TWO_BY_TWO,
        0,
    );
    holds(&rt, alloc, &yard, TWO_OF_EACH);
}

#[test]
fn torn_write(rt: HostRuntime) {
    let alloc = rt.alloc();
    let mut yard = over(&rt, alloc, THREE, 8192, &[(0, 0, 1)]);
    expect(&rt, alloc, "torn write", "-v -f p", &mut yard, TORN, 2);
}

#[test]
fn data_that_cannot_be_opened(rt: HostRuntime) {
    let alloc = rt.alloc();
    // the passes of the store, and its first worker's arm
    for place in [0, 1] {
        let mut yard = over(&rt, alloc, FOUR, 65536, &[]);
        yard.refuse(text(&rt, alloc, "/d/a"), place)
            .expect(&rt, "memory");
        let wanted = "cannot open /d/a\nstatus 12\n";
        expect(&rt, alloc, "refused", "-v -f p", &mut yard, wanted, 12);
        holds(&rt, alloc, &yard, &[]);
        expect(&rt, alloc, "after it", "-v -f p", &mut yard, FOUR_WRITES, 0);
    }
}

/// A gate at which worker 0 waits before its first write until worker 1's first write was answered; it gives up after so many looks.
#[derive(Drop)]
struct Meeting {
    answered: AtomicBool,
    gave_up: AtomicBool,
}

impl Turnstile for Meeting {
    fn before(&self, worker: u32, turn: u64, write: bool) {
        if worker != 0 || turn != 0 || !write {
            return;
        }
        for _ in 0..100_000_000u32 {
            if self.answered.load(Ordering::SeqCst) {
                return;
            }
        }
        self.gave_up.store(true, Ordering::SeqCst);
    }

    fn after(&self, worker: u32, turn: u64, write: bool) {
        if worker == 1 && turn == 0 && write {
            self.answered.store(true, Ordering::SeqCst);
        }
    }
}

#[test]
fn two_workers_beside_each_other(rt: HostRuntime) {
    let alloc = rt.alloc();
    let mut yard = over(&rt, alloc, TWO_WORKERS, 65536, &[]);
    let gate = Meeting {
        answered: AtomicBool::new(false),
        gave_up: AtomicBool::new(false),
    };
    expect_at(
        &rt,
        alloc,
        "a meeting",
        "-v -f p",
        &mut yard,
        &gate,
        TWO_BY_TWO,
        0,
    );
    let gave_up = gate.gave_up.load(Ordering::SeqCst);
    assert!(&rt; !gave_up, "no meeting");
}
