// A stamp and the parts of its bytes, against values computed elsewhere.
use crate::{Part, first_difference, image_laws, stamp, stamp_block};
use vd_base::{BlockNo, Geometry, Key, StoreId, StoreName};

#[test]
fn the_stamp_row(rt: HostRuntime) {
    image_laws();
    let name = StoreName::read(b"sd1").expect(&rt, "a name");
    let key = Key::of(3).expect(&rt, "a key");
    let mut sector = [9; 512];
    stamp(&name, 4096, key, &mut sector);
    assert!(rt; sector[..8] == [0, 0, 0, 0, 0, 0, 0x10, 0]);
    assert!(rt; sector[8..20] == [0, 0, 0, 0, 0, 0, 0, 0, 0x03, 0x13, 0, 0]);
    assert!(rt; sector[20..32] == [0x73, 0x64, 0x31, 0, 0, 0, 0, 0, 0, 0, 0, 0]);
    assert!(rt; sector[32..39] == [0xfc, 0x03, 0x00, 0x00, 0xfd, 0xf6, 0xdb]);
    assert_eq!(rt; first_difference(&name, 4096, key, &sector), None);

    for (byte, part) in [
        (0, Part::Address),
        (7, Part::Address),
        (8, Part::Pattern),
        (16, Part::Key),
        (17, Part::Key),
        (18, Part::Pattern),
        (20, Part::Name),
        (27, Part::Name),
        (28, Part::Pattern),
        (32, Part::Pattern),
        (511, Part::Pattern),
    ] {
        let mut changed = sector;
        if let Some(at) = changed.get_mut(byte) {
            *at ^= 64;
        }
        assert_eq!(rt;
            first_difference(&name, 4096, key, &changed),
            Some(part),
            "byte {byte}"
        );
    }
}

/// The image of a sector of the store `sd1`, written out field by field and the pattern bit by bit.
fn plain_image(address: u64, key: u8) -> [u8; 512] {
    let mut image = [0; 512];
    image[..8].copy_from_slice(&address.to_be_bytes());
    image[16] = key;
    image[17] = key;
    for byte in address.to_be_bytes() {
        image[17] ^= byte;
    }
    image[20..23].copy_from_slice(b"sd1");
    let seed = (address / 512 * 127 + key as u64) % 4_294_967_295 + 1;
    let mut bits = [0u8; 3840];
    for i in 0..3840usize {
        bits[i] = if i < 32 {
            (seed / 2u64.wrapping_pow(i as u32) % 2) as u8
        } else {
            bits[i - 32] ^ bits[i - 31] ^ bits[i - 30] ^ bits[i - 10]
        };
    }
    for j in 0..480usize {
        for k in 0..8usize {
            image[32 + j] = image[32 + j] / 2 + bits[8 * j + k] % 2 * 128;
        }
    }
    image
}

#[test]
fn blocks_have_the_images_of_the_definition(rt: HostRuntime) {
    let key = Key::of(3).expect(&rt, "a key");
    let mut room = [0; 8704];
    for sectors in [1, 2, 7, 8, 9, 16, 17] {
        let size = sectors as usize * 512;
        let store = StoreId {
            name: StoreName::read(b"sd1").expect(&rt, "a name"),
            geometry: Geometry::new(16, sectors * 512).expect(&rt, "a geometry"),
        };
        let block = &mut room[..size];
        stamp_block(&store, BlockNo(5), key, block);
        for i in 0..sectors {
            let at = 512 * i as usize;
            let address = 5 * size as u64 + at as u64;
            assert_eq!(rt;
                &block[at..at + 512],
                plain_image(address, 3).as_slice(),
                "sector {i} of {sectors}"
            );
        }
    }
}
