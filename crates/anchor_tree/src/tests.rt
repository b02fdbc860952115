// Trees whose numbers and names were worked apart from this program.
use crate::{
    Distribution, Tree, TreeFault, blocks_are_places, directories_stand, files_stand, names_differ,
};
use std::alloc::Global;
use std::process::Abort;
use vd_base::BlockNo;
use vd_outside::Text;

fn tree(
    rt: &impl Abort,
    alloc: Global,
    anchor: &str,
    numbers: (u32, u32, u32),
    sizes: &[(u64, u32)],
    distribution: Distribution,
) -> Result<Tree, TreeFault> {
    let anchor = Text::from_str(alloc, anchor).expect(rt, "memory");
    let sizes = Vec::from_slice(alloc, sizes).expect(rt, "memory");
    let (depth, width, files) = numbers;
    Tree::new(alloc, anchor, depth, width, files, sizes, distribution)
}

fn assert_directories(rt: &impl Abort, alloc: Global, tree: &Tree, names: &[(u32, &str)]) {
    for (directory, name) in names {
        assert!(rt; *directory < tree.directories());
        let found = tree.dir_name(alloc, *directory).expect(rt, "memory");
        assert_eq!(rt; found.as_str(), *name);
    }
}

fn assert_files(rt: &impl Abort, alloc: Global, tree: &Tree, files: &[(u32, u64, &str)]) {
    for (file, size, name) in files {
        assert!(rt; *file < tree.files());
        assert_eq!(rt; tree.file_size(*file), *size);
        let found = tree.file_name(alloc, *file).expect(rt, "memory");
        assert_eq!(rt; found.as_str(), *name);
    }
}

/// Asserts in which file and where in it blocks of 4,096 bytes lie.
fn assert_blocks(rt: &impl Abort, tree: &Tree, blocks: &[(u32, u32, u64)]) {
    for (block, file, place) in blocks {
        assert!(rt; tree.blocks(4096) <= 16_777_216);
        assert!(rt; u64::from(*block) < tree.blocks(4096));
        let found = tree.file_of_block(4096, BlockNo(*block));
        assert_eq!(rt; found, (*file, *place));
        assert_eq!(rt; tree.block_of(4096, found.0, found.1).0, *block);
    }
}

#[test]
fn two_levels_of_two(rt: HostRuntime) {
    let alloc = rt.alloc();
    let tree = tree(
        &rt,
        alloc,
        "/a",
        (2, 2, 2),
        &[(8192, 100)],
        Distribution::Bottom,
    )
    .expect(&rt, "a tree");
    assert_eq!(rt; tree.directories(), 6);
    assert_eq!(rt; tree.files(), 8);
    assert_eq!(rt; tree.blocks(4096), 16);
    assert_directories(
        &rt,
        alloc,
        &tree,
        &[
            (0, "/a/vdb1_1.dir"),
            (1, "/a/vdb1_2.dir"),
            (2, "/a/vdb1_1.dir/vdb2_1.dir"),
            (5, "/a/vdb1_2.dir/vdb2_2.dir"),
        ],
    );
    assert_files(
        &rt,
        alloc,
        &tree,
        &[
            (0, 8192, "/a/vdb1_1.dir/vdb2_1.dir/vdb_f0001.file"),
            (2, 8192, "/a/vdb1_1.dir/vdb2_2.dir/vdb_f0001.file"),
            (7, 8192, "/a/vdb1_2.dir/vdb2_2.dir/vdb_f0002.file"),
        ],
    );
    assert_blocks(&rt, &tree, &[(0, 0, 0), (5, 2, 1), (15, 7, 1)]);
}

#[test]
fn three_levels_of_three(rt: HostRuntime) {
    let alloc = rt.alloc();
    let sizes = [(1000, 50), (5000, 30), (12_288, 20)];
    let tree = tree(&rt, alloc, "/mnt/t", (3, 3, 4), &sizes, Distribution::All).expect(
        &rt, "a tree",
    );
    assert_eq!(rt; tree.directories(), 39);
    assert_eq!(rt; tree.files(), 156);
    assert_eq!(rt; tree.blocks(4096), 96);
    assert_directories(
        &rt,
        alloc,
        &tree,
        &[
            (2, "/mnt/t/vdb1_3.dir"),
            (3, "/mnt/t/vdb1_1.dir/vdb2_1.dir"),
            (11, "/mnt/t/vdb1_3.dir/vdb2_3.dir"),
            (38, "/mnt/t/vdb1_3.dir/vdb2_3.dir/vdb3_3.dir"),
        ],
    );
    assert_files(
        &rt,
        alloc,
        &tree,
        &[
            (11, 1000, "/mnt/t/vdb1_3.dir/vdb_f0004.file"),
            (
                49,
                1000,
                "/mnt/t/vdb1_1.dir/vdb2_1.dir/vdb3_1.dir/vdb_f0002.file",
            ),
            (
                50,
                5000,
                "/mnt/t/vdb1_1.dir/vdb2_1.dir/vdb3_1.dir/vdb_f0003.file",
            ),
            (
                80,
                12_288,
                "/mnt/t/vdb1_1.dir/vdb2_3.dir/vdb3_3.dir/vdb_f0001.file",
            ),
            (
                100,
                1000,
                "/mnt/t/vdb1_2.dir/vdb2_2.dir/vdb3_2.dir/vdb_f0001.file",
            ),
            (
                155,
                5000,
                "/mnt/t/vdb1_3.dir/vdb2_3.dir/vdb3_3.dir/vdb_f0004.file",
            ),
        ],
    );
    let blocks = [
        (0, 50, 0),
        (29, 79, 0),
        (30, 80, 0),
        (32, 80, 2),
        (33, 81, 0),
        (89, 99, 2),
        (90, 150, 0),
        (95, 155, 0),
    ];
    assert_blocks(&rt, &tree, &blocks);
}

#[test]
fn numbers_of_more_digits(rt: HostRuntime) {
    let alloc = rt.alloc();
    let tree = tree(
        &rt,
        alloc,
        "x",
        (1, 11, 12_000),
        &[(512, 100)],
        Distribution::Bottom,
    )
    .expect(&rt, "a tree");
    assert_directories(
        &rt,
        alloc,
        &tree,
        &[(9, "x/vdb1_10.dir"), (10, "x/vdb1_11.dir")],
    );
    assert_files(
        &rt,
        alloc,
        &tree,
        &[
            (98, 512, "x/vdb1_1.dir/vdb_f0099.file"),
            (9998, 512, "x/vdb1_1.dir/vdb_f9999.file"),
            (9999, 512, "x/vdb1_1.dir/vdb_f10000.file"),
            (12_000, 512, "x/vdb1_2.dir/vdb_f0001.file"),
        ],
    );
}

#[test]
fn blocks_are_held(rt: HostRuntime) {
    let alloc = rt.alloc();
    let greatest = [(u64::MAX, 100)];
    let tree = tree(&rt, alloc, "/a", (4, 1, 3), &greatest, Distribution::Bottom).expect(
        &rt, "a tree",
    );
    assert_eq!(rt; tree.files(), 3);
    assert_eq!(rt; tree.blocks(2), u64::MAX);
    assert_eq!(rt; tree.blocks(4), 13_835_058_055_282_163_709);
}

#[test]
fn refused_trees(rt: HostRuntime) {
    let alloc = rt.alloc();
    let one = [(512, 100)].as_slice();
    let many = [(512, u32::MAX), (512, u32::MAX)].as_slice();
    let bottom = Distribution::Bottom;
    for (numbers, sizes, distribution, fault) in [
        ((0, 1, 1), one, bottom, TreeFault::Empty),
        ((1, 0, 1), one, bottom, TreeFault::Empty),
        ((1, 1, 0), one, bottom, TreeFault::Empty),
        ((1, 1, 1), [].as_slice(), bottom, TreeFault::Empty),
        (
            (300, 300, 0),
            [(0, 99)].as_slice(),
            bottom,
            TreeFault::Empty,
        ),
        (
            (300, 300, 1),
            [(512, 99)].as_slice(),
            bottom,
            TreeFault::Percent { sum: 99 },
        ),
        (
            (1, 1, 1),
            many,
            bottom,
            TreeFault::Percent { sum: 8_589_934_590 },
        ),
        (
            (2, 300, 1),
            one,
            bottom,
            TreeFault::TooLarge {
                directories: 90_300,
                files: 90_000,
            },
        ),
        (
            (2, 300, 1),
            one,
            Distribution::All,
            TreeFault::TooLarge {
                directories: 90_300,
                files: 90_300,
            },
        ),
        (
            (1_048_576, 1, 1),
            one,
            bottom,
            TreeFault::TooLarge {
                directories: 1_048_576,
                files: 1,
            },
        ),
        (
            (1, 2, 524_289),
            one,
            bottom,
            TreeFault::TooLarge {
                directories: 2,
                files: 1_048_578,
            },
        ),
        (
            (32, 4, 1),
            one,
            bottom,
            TreeFault::TooLarge {
                directories: u64::MAX,
                files: u64::MAX,
            },
        ),
        (
            (63, 2, 1),
            one,
            bottom,
            TreeFault::TooLarge {
                directories: 18_446_744_073_709_551_614,
                files: 9_223_372_036_854_775_808,
            },
        ),
    ] {
        let refused = tree(&rt, alloc, "/a", numbers, sizes, distribution);
        assert_eq!(rt; refused.err(), Some(fault));
    }
}

#[test]
fn laws_are_called() {
    blocks_are_places();
    names_differ();
    directories_stand();
    files_stand();
}
