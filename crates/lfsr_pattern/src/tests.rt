// Patterns against the recurrence written out bit by bit, and against bytes computed elsewhere.
ghost use Rattle.std.specs.Prelude.{◌≤◌, length};

use crate::{byte_step, fill, fill_lanes, is_pattern, one_pattern, seed, told_by_bytes};
use std::process::Abort;

/// The pattern one bit at a time: each bit from 32 on is the exclusive or of the ones 32, 31, 30 and 10 before it.
fn by_bits(seed: u32) -> [u8; 480] {
    let mut bits = [0u8; 3840];
    for i in 0..3840usize {
        bits[i] = if i < 32 {
            (seed / 2u32.wrapping_pow(i as u32) % 2) as u8
        } else {
            bits[i - 32] ^ bits[i - 31] ^ bits[i - 30] ^ bits[i - 10]
        };
    }
    let mut bytes = [0u8; 480];
    for j in 0..480usize {
        let mut byte = 0u8;
        for k in 0..8usize {
            byte = byte / 2 + bits[8 * j + k] % 2 * 128;
        }
        bytes[j] = byte;
    }
    bytes
}

#[test]
fn fill_is_the_recurrence(rt: HostRuntime) {
    one_pattern();
    byte_step();
    told_by_bytes();
    for seed in [1, 1020, 0x8000_0000, 0xdead_beef, 4_294_967_295] {
        let mut made = [7; 480];
        fill(seed, &mut made);
        assert_eq!(rt; made.as_slice(), by_bits(seed).as_slice());
        assert!(rt; is_pattern(seed, &made));
        assert!(rt; !is_pattern(seed ^ 1, &made));
        for byte in [0, 31, 32, 479] {
            let mut changed = made;
            if let Some(at) = changed.get_mut(byte) {
                *at ^= 128;
            }
            assert!(rt; !is_pattern(seed, &changed), "byte {byte}");
        }
    }
}

#[test]
fn each_lane_is_the_pattern_of_its_seed(rt: HostRuntime) {
    let seeds = [
        1,
        1020,
        2,
        0x8000_0000,
        0xdead_beef,
        4_294_967_295,
        1020,
        77,
    ];
    let mut made = [[7; 480]; 8];
    fill_lanes(&seeds, &mut made);
    for lane in 0..8usize {
        assert_eq!(rt;
            made[lane].as_slice(),
            by_bits(seeds[lane]).as_slice(),
            "lane {lane}"
        );
    }
}

#[test]
fn known_beginnings(rt: HostRuntime) {
    assert_eq!(rt; seed(4096, 3), 1020);
    let first = [0x01, 0x00, 0x00, 0x00, 0x01, 0x04, 0x10, 0x80];
    let second = [0xfc, 0x03, 0x00, 0x00, 0xfd, 0xf6, 0xdb];
    begins_with(&rt, 1, &first);
    begins_with(&rt, 1020, &second);
}

/// The pattern of a seed begins so, made alone and in every lane.
fn begins_with(rt: &impl Abort, seed: u32, wanted: &[u8])
    requires { length wanted.now ≤ 480 }
{
    let many = wanted.len();
    let mut made = [0; 480];
    fill(seed, &mut made);
    assert_eq!(rt; &made[..many], wanted);
    let mut lanes = [[7; 480]; 8];
    fill_lanes(&[seed; 8], &mut lanes);
    for lane in lanes {
        assert_eq!(rt; &lane[..many], wanted);
    }
}
