// Files with what is defined in them, and the faults of files.
use crate::{Definitions, DefsRefused};
use std::alloc::Global;
use std::process::Abort;

/// The fault of a file.
fn fault(rt: &impl Abort, alloc: Global, bytes: &[u8]) -> String {
    let mut text = String::new(alloc);
    let lines = parm_lex::lines(alloc, bytes).expect(rt, "lines");
    assert!(rt; bytes.len() < 1000);
    match Definitions::read(alloc, bytes, &lines) {
        Ok(_) => {}
        Err(DefsRefused::Fault(fault)) => {
            write!(text, "{} {:?}", fault.line, fault.kind).expect(rt, "memory");
        }
        Err(DefsRefused::NoMemory) => text.push_str("no memory").expect(rt, "memory"),
    }
    text
}

/// The stores, workloads and runs of a file: of each its line and name, and some of its values.
fn shown(rt: &impl Abort, alloc: Global, bytes: &[u8]) -> String {
    let mut text = String::new(alloc);
    let lines = parm_lex::lines(alloc, bytes).expect(rt, "lines");
    assert!(rt; bytes.len() < 1000);
    let defs = Definitions::read(alloc, bytes, &lines).expect(rt, "definitions");
    for d in defs.hds() {
        write!(text, "[{} hd {} {} {}]", d.line, d.name, d.system, d.jvms).expect(rt, "memory");
    }
    for d in defs.sds() {
        write!(
            text,
            "[{} sd {} {} {}",
            d.line, d.name, d.journal, d.threads
        )
        .expect(rt, "memory");
        if let Some(lun) = &d.lun {
            write!(text, " {lun}").expect(rt, "memory");
        }
        if let Some(size) = d.size {
            write!(text, " {size}").expect(rt, "memory");
        }
        text.push(']').expect(rt, "memory");
    }
    for d in defs.wds() {
        write!(
            text,
            "[{} wd {} {} {}]",
            d.line, d.name, d.rdpct, d.xfersize
        )
        .expect(rt, "memory");
    }
    for d in defs.rds() {
        write!(text, "[{} rd {} {} {}", d.line, d.name, d.elapsed, d.iorate).expect(rt, "memory");
        for word in d.loops.as_slice() {
            write!(text, " {word}").expect(rt, "memory");
        }
        text.push(']').expect(rt, "memory");
    }
    for d in defs.fsds() {
        write!(
            text,
            "[{} fsd {} {} {}]",
            d.line, d.name, d.journal, d.shared
        )
        .expect(rt, "memory");
    }
    for d in defs.fwds() {
        write!(
            text,
            "[{} fwd {} {} {}]",
            d.line, d.name, d.operation, d.rdpct
        )
        .expect(rt, "memory");
    }
    text
}

const FAULTS: [(&[u8], &str); 40] = [
    (b"", ""),
    (b"sd=sd1,lun=/d/a,size=64x", "1 BadNumber"),
    (b"wd=wd1,\nsd=sd1,\nxfersize=1000", "3 OutOfRange"),
    (b"sd=sd1,lun=/d/a,lun=/d/b", "1 RepeatedKeyword"),
    (b"sd=sd1,lun=/d/a,size=64k,hitarea=1m", "1 UnknownKeyword"),
    (b"sd=sd1,lun=\"/d/a b\",size=64k", ""),
    (b"sd=a,sd=b", "1 UnknownKeyword"),
    (b"sd=(a)", ""),
    (b"sd=(a,b)", "1 ValueCount"),
    (b"sd=\"\"", "1 BadName"),
    (b"sd=abcdefghi", "1 BadName"),
    (b"wd=abcdefghi", ""),
    (b"sd=a-b", "1 BadName"),
    (b"sd=a\nsd=b\nsd=a", "3 NameTaken"),
    (b"sd=default\nsd=default", ""),
    (b"sd=a\nwd=a\nrd=a\nhd=a,system=localhost", ""),
    (b"sd=a1\nsd=a,count=(0,2)", "2 NameTaken"),
    (b"sd=a,count=(0,2)\nsd=a1", "2 NameTaken"),
    (b"sd=abcdefg,count=(9,2)", "1 BadName"),
    (b"sd=abcdefgh,count=(1,1)", "1 BadName"),
    (b"sd=a,count=(1,65)", "1 OutOfRange"),
    (b"sd=a,count=1", "1 ValueCount"),
    (b"sd=a,count=(1,64)", ""),
    (b"sd=a,count=(1,64)\nsd=b", "2 TooMany"),
    (b"sd=default,count=(x,1)", "1 BadNumber"),
    (b"sd=default,count=(1,1)", "1 BadChoice"),
    (b"sd=a\nfsd=b", "2 BothKinds"),
    (b"wd=default\nfwd=b", "2 BothKinds"),
    (b"fsd=default\nsd=b,x=1", "2 BothKinds"),
    (b"fsd=a\nsd=b-c", "2 BadName"),
    (b"hd=localhost", ""),
    (b"hd=default", ""),
    (b"hd=a", "1 RemoteHost"),
    (b"hd=default,system=other", "1 RemoteHost"),
    (b"hd=default,system=localhost\nhd=a", ""),
    (
        b"data_errors=5\nvalidate=yes,data_errors=6",
        "2 RepeatedKeyword",
    ),
    (b"data_errors=0", "1 OutOfRange"),
    (b"threads=1", "1 UnknownKeyword"),
    (b"SD=a", "1 UnknownKeyword"),
    (b"rd=a,iorate=fast\nrd=b,x=1", "1 BadChoice"),
];

#[test]
fn first_faults(rt: HostRuntime) {
    let alloc = rt.alloc();
    for (bytes, wanted) in FAULTS {
        assert_eq!(rt; fault(&rt, alloc, bytes).as_str(), wanted);
    }
}

const READ: [(&[u8], &str); 9] = [
    (
        b"sd=sd1,lun=/d/a,size=64k\nwd=wd1,sd=sd1,xfersize=4k\nrd=rd1,wd=wd1",
        "[1 sd sd1 sd1.jnl 8 /d/a 65536][2 wd wd1 100 4096][3 rd rd1 30 0]",
    ),
    (
        b"sd=sd,lun=/d/x,size=1m,count=(1,3)",
        "[1 sd sd1 sd1.jnl 8 /d/x1 1048576][1 sd sd2 sd2.jnl 8 /d/x2 1048576][1 sd sd3 sd3.jnl 8 /d/x3 1048576]",
    ),
    (
        b"sd=default,lun=/d/x,journal=/j/y,threads=2\nsd=s,count=(9,2)\nsd=t,lun=/d/z",
        "[2 sd s9 /j/y9 2 /d/x9][2 sd s10 /j/y10 2 /d/x10][3 sd t /j/y 2 /d/z]",
    ),
    (
        b"wd=default,rdpct=1,xfersize=8k\nwd=a\nwd=default,rdpct=2\nwd=b\nwd=c,rdpct=3",
        "[2 wd a 1 8192][4 wd b 2 8192][5 wd c 3 8192]",
    ),
    (
        b"rd=a,wd=a,forxfersize=(4k,8k),forthreads=(1,2)",
        "[1 rd a 30 0 forxfersize forthreads]",
    ),
    (
        b"rd=default,forrdpct=(0,1),forthreads=1,forxfersize=4k\nrd=a\nrd=b,forrdpct=2\nrd=c,iorate=5,forxfersize=4k,forrdpct=1",
        "[2 rd a 30 0 forthreads forxfersize forrdpct][3 rd b 30 0 forrdpct forthreads forxfersize][4 rd c 30 5 forxfersize forrdpct forthreads]",
    ),
    (
        b"hd=a,\nsystem=localhost,\njvms=4\nhd=localhost",
        "[1 hd a localhost 4][4 hd localhost localhost 1]",
    ),
    (
        b"fsd=f,count=(1,2),anchor=/a\nfwd=a\nfwd=b,operation=write\nfwd=c,operation=write,rdpct=7",
        "[1 fsd f1 f1.jnl no][1 fsd f2 f2.jnl no][2 fwd a read 100][3 fwd b write 0][4 fwd c write 7]",
    ),
    (b"hd=default,jvms=4", ""),
];

#[test]
fn values_of_definitions(rt: HostRuntime) {
    let alloc = rt.alloc();
    for (bytes, wanted) in READ {
        assert_eq!(rt; shown(&rt, alloc, bytes).as_str(), wanted);
    }
}

#[test]
fn definitions_are_counted(rt: HostRuntime) {
    let alloc = rt.alloc();
    let bytes = b"data_errors=7\nhd=localhost\nsd=a\nsd=b\nwd=w\nrd=r\nrd=s".as_slice();
    let lines = parm_lex::lines(alloc, bytes).expect(&rt, "lines");
    assert!(rt; bytes.len() < 1000);
    let defs = Definitions::read(alloc, bytes, &lines).expect(&rt, "definitions");
    assert_eq!(rt; defs.general().data_errors, 7);
    assert_eq!(rt; defs.general().validate.as_slice().len(), 1);
    assert_eq!(rt; defs.hd_count(), 1);
    assert_eq!(rt; defs.sd_count(), 2);
    assert_eq!(rt; defs.wd_count(), 1);
    assert_eq!(rt; defs.rd_count(), 2);
    assert_eq!(rt; defs.fsd_count(), 0);
    assert_eq!(rt; defs.fwd_count(), 0);
    assert!(rt; defs.sd_at(1).is_some_and(|d| d.name.as_str() == "b"));
    assert!(rt; defs.sd_at(2).is_none());
    assert!(rt; defs.hd_at(0).is_some_and(|d| d.jvms == 1));
    assert!(rt; defs.wd_at(0).is_some_and(|d| d.seekpct == 100));
    assert!(rt; defs.rd_at(1).is_some_and(|d| d.line == 7));
    assert!(rt; defs.fsd_at(0).is_none());
    assert!(rt; defs.fwd_at(0).is_none());
}
