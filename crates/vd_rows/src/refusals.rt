// Parameter files that are refused, and the line that is printed.
use crate::setting::{RECOVER, expect, yard_of};
use std::alloc::Global;
use std::process::Abort;
use std::sync::Wait;
use std::thread::Threads;

/// Faults of lines.
const LINES: [(&[u8], &str); 10] = [
    (b"sd=", "parameter line 1 column 4: empty value"),
    (b"sd=((a))", "parameter line 1 column 5: empty value"),
    (b"sd=(sd1", "parameter line 1 column 8: unclosed list"),
    (b"sd=\"sd1", "parameter line 1 column 8: unclosed quote"),
    (b"sd=sd1,", "parameter line 1 column 8: open end"),
    (b"sd=\x80", "parameter line 1 column 4: bad byte"),
    (
        b"sd=sd1,,lun=/d/a,size=64k\nwd=wd1,sd=sd1,xfersize=4k\nrd=rd1,wd=wd1\n",
        "parameter line 1 column 8: empty part",
    ),
    (
        b"* one\nsd = sd1\n",
        "parameter line 2 column 3: missing equals",
    ),
    (b"sd=sd1)\n", "parameter line 1 column 7: unexpected text"),
    // A fault of a line comes before those of definitions.
    (
        b"sd=sd1,hitarea=1m\nsd=\n",
        "parameter line 2 column 4: empty value",
    ),
];

/// Faults of definitions.
const DEFINITIONS: [(&[u8], &str); 13] = [
    (
        b"sd=sd1,lun=/d/a,size=64k,hitarea=1m\nwd=wd1,sd=sd1,xfersize=4k\nrd=rd1,wd=wd1\n",
        "parameter line 1: unknown keyword",
    ),
    (
        b"sd=sd1,lun=/d/a,size=64x\nwd=wd1,sd=sd1,xfersize=4k\nrd=rd1,wd=wd1\n",
        "parameter line 1: bad number",
    ),
    (
        b"sd=sd1,lun=/d/a,size=64k\nwd=wd1,sd=sd1,xfersize=1000\nrd=rd1,wd=wd1\n",
        "parameter line 2: out of range",
    ),
    (
        b"sd=sd1,lun=/d/a,lun=/d/b,size=64k\nwd=wd1,sd=sd1,xfersize=4k\nrd=rd1,wd=wd1\n",
        "parameter line 1: repeated keyword",
    ),
    // The line is that of the part.
    (
        b"sd=sd1,lun=/d/a,\n# between\n   size=64k,threads=257\n",
        "parameter line 3: out of range",
    ),
    (
        b"sd=sd1,size=(1k,2k)\n",
        "parameter line 1: wrong number of values",
    ),
    (
        b"data_errors=5\nrd=rd1,format=maybe\n",
        "parameter line 2: bad choice",
    ),
    (b"sd=sd-1\n", "parameter line 1: bad name"),
    (b"sd=abcdefghi\n", "parameter line 1: bad name"),
    (
        b"fsd=a,anchor=/d\n\nsd=b\n",
        "parameter line 3: both kinds of storage",
    ),
    (b"wd=one\nwd=one\n", "parameter line 2: name taken"),
    (b"hd=far\n", "parameter line 1: remote host"),
    (
        b"sd=sd,lun=/d/a,size=64k,count=(1,64)\nsd=one\n",
        "parameter line 2: too many definitions",
    ),
];

/// Refusals of the plan.
const PLANS: [(&[u8], &str); 20] = [
    (b"", "parameter line 0: no runs"),
    (
        b"sd=sd1,lun=/d/a,size=64k\nwd=wd1,sd=sd1\n",
        "parameter line 0: no runs",
    ),
    (
        b"sd=sd1,size=64k\nwd=wd1,sd=sd1\nrd=rd1,wd=wd1\n",
        "parameter line 1: no path",
    ),
    (
        b"sd=sd1,lun=/d/a\nwd=wd1,sd=sd1\nrd=rd1,wd=wd1\n",
        "parameter line 1: no size",
    ),
    (
        b"sd=sd1,lun=/d/a,size=64k,journal=/d/a\nwd=wd1,sd=sd1\nrd=rd1,wd=wd1\n",
        "parameter line 1: path taken",
    ),
    (
        b"sd=sd1,lun=/d/a,size=64k\nsd=sd2,lun=sd1.jnl,size=64k\nrd=rd1,wd=wd1\n",
        "parameter line 2: path taken",
    ),
    (
        b"sd=sd1,lun=/d/a,size=64k\nwd=wd1,sd=zz*\nrd=rd1,wd=wd1\n",
        "parameter line 2: nothing is selected",
    ),
    (
        b"sd=sd1,lun=/d/a,size=64k\nwd=wd1,sd=sd1\nrd=rd1,wd=wd2\n",
        "parameter line 3: nothing is selected",
    ),
    (
        b"sd=sd1,lun=/d/a,size=64k\nwd=wd1,sd=sd1\nrd=rd1,wd=wd1,format=yes\n",
        "parameter line 3: format without a file system",
    ),
    (
        b"sd=sd1,lun=/d/a,size=64k\nwd=wd1,sd=sd1,skew=60\nwd=wd2,sd=sd1,skew=50\nrd=rd1,wd=wd*\n",
        "parameter line 4: bad skew",
    ),
    (
        b"sd=sd1,lun=/d/a,size=64k\nwd=wd1,sd=sd1\nrd=rd1,wd=wd1,elapsed=100001\n",
        "parameter line 3: too many intervals",
    ),
    (
        b"sd=sd,lun=/d/a,size=64k,count=(1,3),threads=256\nwd=wd1,sd=*\nrd=rd1,wd=wd1\n",
        "parameter line 3: too many workers",
    ),
    (
        b"sd=sd1,lun=/d/a,size=64k\nwd=wd1,sd=sd1\nrd=rd1,wd=wd1,forthreads=(1,2,3,4,5,6,7,8,9,10),forrdpct=(0,1,2,3,4,5,6,7,8,9),forxfersize=(1k,2k,3k,4k,5k,6k,7k,8k,9k,10k,11k)\n",
        "parameter line 3: too many runs",
    ),
    (
        b"sd=sd1,lun=/d/a,size=64k,keyblock=4k\nwd=wd1,sd=sd1,xfersize=256k\nrd=rd1,wd=wd1\n",
        "parameter line 1: size too small",
    ),
    (
        b"sd=sd1,lun=/d/a,size=64k,keyblock=4k\nwd=wd1,sd=sd1,xfersize=512k\nrd=rd1,wd=wd1\n",
        "parameter line 1: transfer not a multiple",
    ),
    (
        b"sd=sd1,lun=/d/a,size=64k\nwd=wd1,sd=sd1\nrd=rd1,wd=wd1,forxfersize=(4k,6k)\n",
        "parameter line 1: transfer not a multiple",
    ),
    (
        b"sd=sd1,lun=/d/a,size=64k\nwd=wd1,sd=sd1\nrd=rd1,wd=wd1,forxfersize=(4k,128k)\n",
        "parameter line 1: size too small",
    ),
    (
        b"sd=sd1,lun=/d/a,size=3k\nwd=wd1,sd=sd1,xfersize=4k\nrd=rd1,wd=wd1\n",
        "parameter line 1: size too small",
    ),
    (
        b"sd=sd1,lun=/d/a,size=8589935104\nwd=wd1,sd=sd1,xfersize=512\nrd=rd1,wd=wd1\n",
        "parameter line 1: too many blocks",
    ),
    (
        b"create_anchors=yes\nfsd=fsd1,anchor=/a,depth=2,width=2,files=2,sizes=8k\nfwd=fwd1,fsd=fsd1,xfersize=4k\nrd=rd1,fwd=fwd1,format=only\n",
        "parameter line 2: tree not built",
    ),
];

/// A file is refused with this line, whether its plan is asked for or its stores.
fn refused(rt: &(impl Abort + Threads + Wait + Sync), alloc: Global, file: &[u8], line: &str) {
    let mut yard = yard_of(rt, alloc, file);
    let wanted = format!(in alloc; "{line}\nstatus 3\n").expect(rt, "memory");
    for command in ["-s -f p", RECOVER] {
        expect(rt, alloc, line, command, &mut yard, wanted.as_str(), 3);
    }
}

#[test]
fn faults_of_lines(rt: HostRuntime) {
    for (file, line) in LINES {
        refused(&rt, rt.alloc(), file, line);
    }
}

#[test]
fn faults_of_definitions(rt: HostRuntime) {
    for (file, line) in DEFINITIONS {
        refused(&rt, rt.alloc(), file, line);
    }
}

#[test]
fn refusals_of_plans(rt: HostRuntime) {
    for (file, line) in PLANS {
        refused(&rt, rt.alloc(), file, line);
    }
}

#[test]
fn files_and_lines_that_are_too_long(rt: HostRuntime) {
    let alloc = rt.alloc();
    let file = vec![in alloc; 10u8; 1048577].expect(&rt, "memory");
    refused(
        &rt,
        alloc,
        file.as_slice(),
        "parameter line 0 column 0: file too long",
    );
    let comment = vec![in alloc; 42u8; 4097].expect(&rt, "memory");
    refused(
        &rt,
        alloc,
        comment.as_slice(),
        "parameter line 1 column 4097: line too long",
    );
}
