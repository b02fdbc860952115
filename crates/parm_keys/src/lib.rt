//! The keywords of a parameter file, kind by kind.
//!
//! A kind's keywords stand in a table in rising order, each once; a row is a keyword's place in it, from 0. It promises that
//! `KeyTable::find` answers exactly the row of a word, and which words each of the seven tables has. It stands on std alone.
#![tactic(auto)]

mod kinds;
mod table;

pub use kinds::{
    FSD_KEYS, FWD_KEYS, GENERAL_KEYS, HD_KEYS, RD_KEYS, SD_KEYS, WD_KEYS, fsd_row, fwd_row,
    general_row, hd_row, rd_row, sd_row, wd_row,
};
pub use table::KeyTable;

#[cfg(test)]
mod tests {
    use super::*;

    #[test]
    fn words_have_their_rows(rt: HostRuntime) {
        assert_eq!(rt; GENERAL_KEYS.find(b"create_anchors"), Some(0));
        assert_eq!(rt; GENERAL_KEYS.find(b"validate"), Some(4));
        assert_eq!(rt; hd_row(b"vdbench"), Some(4));
        assert_eq!(rt; SD_KEYS.find(b"keyblock"), Some(3));
        assert_eq!(rt; sd_row(b"sd"), None);
        assert_eq!(rt; wd_row(b"sd"), Some(2));
        assert_eq!(rt; rd_row(b"wd"), Some(11));
        assert_eq!(rt; fsd_row(b"keyblock"), Some(6));
        assert_eq!(rt; fwd_row(b"fsd"), Some(2));
        assert_eq!(rt; general_row(b"data_error"), None);
        assert_eq!(rt; sd_row(b"LUN"), None);
        assert_eq!(rt; sd_row(b"luns"), None);
        assert_eq!(rt; sd_row(b""), None);
    }
}
