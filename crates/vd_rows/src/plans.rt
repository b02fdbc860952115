// Plans: what `-s` prints of a file that is accepted.
use crate::setting::{expect, text, yard_of};

const TWO_STORES: &str =
    "* usual\nsd=default,openflags=o_direct,threads=8\nsd=sd1,lun=/d/a,size=1g\nsd=sd2,lun=/d/b,size=1g\nwd=wd1,sd=sd*,xfersize=4k,rdpct=50\nrd=rd1,wd=wd1,iorate=max,elapsed=60,interval=1\n";

const PLAN_OF_TWO: &str =
    "store sd1 lun /d/a blocks 262144 of 4096 threads 8 journal sd1.jnl openflags o_direct\nstore sd2 lun /d/b blocks 262144 of 4096 threads 8 journal sd2.jnl openflags o_direct\nrun 1 rd1 iorate max elapsed 60 interval 1 turns 4294967295 format no slaves 1 workers 16\nshare wd1 sd1 xfersize 4096 rdpct 50 seekpct 100 weight 100\nshare wd1 sd2 xfersize 4096 rdpct 50 seekpct 100 weight 100\nstatus 0\n";

const COUNTED: &str =
    "sd=sd,lun=/d/x,size=1m,count=(1,3)\nwd=w,sd=(sd1,sd3),xfersize=4k\nrd=r,wd=w\n";

const PLAN_OF_COUNTED: &str =
    "store sd1 lun /d/x1 blocks 256 of 4096 threads 8 journal sd1.jnl\nstore sd2 lun /d/x2 blocks 256 of 4096 threads 8 journal sd2.jnl\nstore sd3 lun /d/x3 blocks 256 of 4096 threads 8 journal sd3.jnl\nrun 1 r iorate max elapsed 30 interval 1 turns 4294967295 format no slaves 1 workers 16\nshare w sd1 xfersize 4096 rdpct 100 seekpct 100 weight 100\nshare w sd3 xfersize 4096 rdpct 100 seekpct 100 weight 100\nstatus 0\n";

const LOOPS: &str =
    "sd=sd1,lun=/d/a,size=64k\nwd=wd1,sd=sd1,xfersize=4k\nrd=rd1,wd=wd1,forxfersize=(4k,8k),forthreads=(1,2)\n";

const PLAN_OF_LOOPS: &str =
    "store sd1 lun /d/a blocks 16 of 4096 threads 8 journal sd1.jnl\nrun 1 rd1 iorate max elapsed 30 interval 1 turns 4294967295 format no slaves 1 workers 1\nshare wd1 sd1 xfersize 4096 rdpct 100 seekpct 100 weight 100\nrun 2 rd1 iorate max elapsed 30 interval 1 turns 4294967295 format no slaves 1 workers 2\nshare wd1 sd1 xfersize 4096 rdpct 100 seekpct 100 weight 100\nrun 3 rd1 iorate max elapsed 30 interval 1 turns 4294967295 format no slaves 1 workers 1\nshare wd1 sd1 xfersize 8192 rdpct 100 seekpct 100 weight 100\nrun 4 rd1 iorate max elapsed 30 interval 1 turns 4294967295 format no slaves 1 workers 2\nshare wd1 sd1 xfersize 8192 rdpct 100 seekpct 100 weight 100\nstatus 0\n";

const GREATEST: &str = "sd=sd1,lun=/d/a,size=8g\nwd=wd1,sd=sd1,xfersize=512\nrd=rd1,wd=wd1\n";

const PLAN_OF_GREATEST: &str =
    "store sd1 lun /d/a blocks 16777216 of 512 threads 8 journal sd1.jnl\nrun 1 rd1 iorate max elapsed 30 interval 1 turns 4294967295 format no slaves 1 workers 8\nshare wd1 sd1 xfersize 512 rdpct 100 seekpct 100 weight 100\nstatus 0\n";

const QUOTED: &str = "sd=sd1,lun=\"/d/a b\",size=64k\nwd=wd1,sd=sd1,xfersize=4k\nrd=rd1,wd=wd1\n";

const PLAN_OF_QUOTED: &str =
    "store sd1 lun /d/a b blocks 16 of 4096 threads 8 journal sd1.jnl\nrun 1 rd1 iorate max elapsed 30 interval 1 turns 4294967295 format no slaves 1 workers 8\nshare wd1 sd1 xfersize 4096 rdpct 100 seekpct 100 weight 100\nstatus 0\n";

/// Transfers of several blocks: a store has its own block size.
const SEVERAL: &str =
    "sd=sd1,lun=/d/a,size=64k,keyblock=4k\nwd=wd1,sd=sd1,xfersize=64k\nrd=rd1,wd=wd1\n";

const PLAN_OF_SEVERAL: &str =
    "store sd1 lun /d/a blocks 16 of 4096 threads 8 journal sd1.jnl\nrun 1 rd1 iorate max elapsed 30 interval 1 turns 4294967295 format no slaves 1 workers 8\nshare wd1 sd1 xfersize 65536 rdpct 100 seekpct 100 weight 100\nstatus 0\n";

const PLANS: [(&str, &str, &str); 6] = [
    ("two stores", TWO_STORES, PLAN_OF_TWO),
    ("counted stores", COUNTED, PLAN_OF_COUNTED),
    ("loops", LOOPS, PLAN_OF_LOOPS),
    ("greatest store", GREATEST, PLAN_OF_GREATEST),
    ("quoted path", QUOTED, PLAN_OF_QUOTED),
    ("transfers of several blocks", SEVERAL, PLAN_OF_SEVERAL),
];

#[test]
fn plans(rt: HostRuntime) {
    let alloc = rt.alloc();
    for (row, file, wanted) in PLANS {
        let mut yard = yard_of(&rt, alloc, file.as_bytes());
        expect(&rt, alloc, row, "-s -f p", &mut yard, wanted, 0);
        // no data file is made
        let made = yard
            .bytes_at(&text(&rt, alloc, "/d/a"))
            .expect(&rt, "memory");
        assert!(rt; made.is_none());
    }
}
