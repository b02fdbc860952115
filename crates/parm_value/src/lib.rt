//! Numbers, sizes and seconds of a parameter file.
//!
//! It promises what an item spells, to the byte: `number_of` a number within a range, `size_of` a size in bytes, `seconds_of` seconds,
//! each with its exact refusal, and `is_number` whether an item is spelled as a number at all. It stands on std alone.
#![tactic(auto)]

mod fault;
mod number;
mod seconds;
mod size;

pub use fault::ValueFault;
pub use number::{is_number, number_of};
pub use seconds::seconds_of;
pub use size::size_of;

#[cfg(test)]
mod tests {
    use super::*;

    const SIZES: [(&[u8], Result<u64, ValueFault>); 16] = [
        (b"64x", Err(ValueFault::BadNumber)),
        (b"", Err(ValueFault::BadNumber)),
        (b"k", Err(ValueFault::BadNumber)),
        (b"1kk", Err(ValueFault::BadNumber)),
        (b"1 k", Err(ValueFault::BadNumber)),
        (b"-1", Err(ValueFault::BadNumber)),
        (b"0", Err(ValueFault::OutOfRange)),
        (b"0g", Err(ValueFault::OutOfRange)),
        (b"1", Ok(1)),
        (b"4k", Ok(4096)),
        (b"4K", Ok(4096)),
        (b"1m", Ok(1_048_576)),
        (b"3G", Ok(3_221_225_472)),
        (b"8388607t", Ok(9_223_370_937_343_148_032)),
        (b"9223372036854775807", Ok(9_223_372_036_854_775_807)),
        (b"8388608t", Err(ValueFault::OutOfRange)),
    ];

    const SECONDS: [(&[u8], Result<u32, ValueFault>); 9] = [
        (b"30", Ok(30)),
        (b"5m", Ok(300)),
        (b"5M", Err(ValueFault::BadNumber)),
        (b"7s", Ok(7)),
        (b"2400h", Ok(8_640_000)),
        (b"2401h", Err(ValueFault::OutOfRange)),
        (b"8640001", Err(ValueFault::OutOfRange)),
        (b"0s", Err(ValueFault::OutOfRange)),
        (b"h", Err(ValueFault::BadNumber)),
    ];

    const NUMBERS: [(&[u8], Result<u64, ValueFault>); 7] = [
        (b"0", Err(ValueFault::OutOfRange)),
        (b"1", Ok(1)),
        (b"10000000", Ok(10_000_000)),
        (b"10000001", Err(ValueFault::OutOfRange)),
        (b"00000000000000000007", Ok(7)),
        (b"000000000000000000007", Err(ValueFault::BadNumber)),
        (b"99999999999999999999", Err(ValueFault::OutOfRange)),
    ];

    #[test]
    fn items_have_their_values(rt: HostRuntime) {
        for (item, wanted) in SIZES {
            assert_eq!(rt; size_of(item), wanted);
        }
        for (item, wanted) in SECONDS {
            assert_eq!(rt; seconds_of(item), wanted);
        }
        for (item, wanted) in NUMBERS {
            assert_eq!(rt; number_of(item, 1, 10_000_000), wanted);
        }
        assert!(rt; is_number(b"99999999999999999999"));
        assert!(rt; !is_number(b"max"));
    }
}
