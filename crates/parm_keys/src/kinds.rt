// The seven tables.
ghost use Rattle.std.specs.Prelude.{◌≡◌};
ghost use Rattle.parm_keys.specs.Words.{row_of};
ghost use Rattle.parm_keys.specs.Kinds.{fsd_words, fwd_words, general_words, hd_words, rd_words, sd_words, wd_words};

use crate::KeyTable;

/// The keywords of a line of general parameters: 0 `create_anchors`, 1 `data_errors`, 2 `journal_sectors`, 3 `messagescan`, 4
/// `validate`.
pub const GENERAL_KEYS: KeyTable<5> = KeyTable {
    words: &[
        "create_anchors",
        "data_errors",
        "journal_sectors",
        "messagescan",
        "validate",
    ],
};

/// The row of a word in `GENERAL_KEYS`.
pub fn general_row(word: &[u8]) -> Option<usize>
    ensures { result ≡ row_of general_words word.now }
{
    GENERAL_KEYS.find(word)
}

/// The keywords of a host: 0 `jvms`, 1 `shell`, 2 `system`, 3 `user`, 4 `vdbench`.
pub const HD_KEYS: KeyTable<5> = KeyTable {
    words: &["jvms", "shell", "system", "user", "vdbench"],
};

/// The row of a word in `HD_KEYS`.
pub fn hd_row(word: &[u8]) -> Option<usize>
    ensures { result ≡ row_of hd_words word.now }
{
    HD_KEYS.find(word)
}

/// The keywords of a storage definition: 0 `count`, 1 `host`, 2 `journal`, 3 `keyblock`, 4 `lun`, 5 `openflags`, 6 `size`, 7
/// `threads`.
pub const SD_KEYS: KeyTable<8> = KeyTable {
    words: &[
        "count",
        "host",
        "journal",
        "keyblock",
        "lun",
        "openflags",
        "size",
        "threads",
    ],
};

/// The row of a word in `SD_KEYS`.
pub fn sd_row(word: &[u8]) -> Option<usize>
    ensures { result ≡ row_of sd_words word.now }
{
    SD_KEYS.find(word)
}

/// The keywords of a workload definition: 0 `host`, 1 `rdpct`, 2 `sd`, 3 `seekpct`, 4 `skew`, 5 `xfersize`.
pub const WD_KEYS: KeyTable<6> = KeyTable {
    words: &["host", "rdpct", "sd", "seekpct", "skew", "xfersize"],
};

/// The row of a word in `WD_KEYS`.
pub fn wd_row(word: &[u8]) -> Option<usize>
    ensures { result ≡ row_of wd_words word.now }
{
    WD_KEYS.find(word)
}

/// The keywords of a run definition: 0 `elapsed`, 1 `format`, 2 `forrdpct`, 3 `forthreads`, 4 `forxfersize`, 5 `fwd`, 6
/// `fwdrate`, 7 `interval`, 8 `iorate`, 9 `openflags`, 10 `turns`, 11 `wd`.
pub const RD_KEYS: KeyTable<12> = KeyTable {
    words: &[
        "elapsed",
        "format",
        "forrdpct",
        "forthreads",
        "forxfersize",
        "fwd",
        "fwdrate",
        "interval",
        "iorate",
        "openflags",
        "turns",
        "wd",
    ],
};

/// The row of a word in `RD_KEYS`.
pub fn rd_row(word: &[u8]) -> Option<usize>
    ensures { result ≡ row_of rd_words word.now }
{
    RD_KEYS.find(word)
}

/// The keywords of a file system: 0 `anchor`, 1 `count`, 2 `depth`, 3 `distribution`, 4 `files`, 5 `journal`, 6 `keyblock`, 7
/// `openflags`, 8 `shared`, 9 `sizes`, 10 `width`.
pub const FSD_KEYS: KeyTable<11> = KeyTable {
    words: &[
        "anchor",
        "count",
        "depth",
        "distribution",
        "files",
        "journal",
        "keyblock",
        "openflags",
        "shared",
        "sizes",
        "width",
    ],
};

/// The row of a word in `FSD_KEYS`.
pub fn fsd_row(word: &[u8]) -> Option<usize>
    ensures { result ≡ row_of fsd_words word.now }
{
    FSD_KEYS.find(word)
}

/// The keywords of a workload on files: 0 `fileio`, 1 `fileselect`, 2 `fsd`, 3 `host`, 4 `operation`, 5 `rdpct`, 6 `skew`, 7
/// `threads`, 8 `xfersize`.
pub const FWD_KEYS: KeyTable<9> = KeyTable {
    words: &[
        "fileio",
        "fileselect",
        "fsd",
        "host",
        "operation",
        "rdpct",
        "skew",
        "threads",
        "xfersize",
    ],
};

/// The row of a word in `FWD_KEYS`.
pub fn fwd_row(word: &[u8]) -> Option<usize>
    ensures { result ≡ row_of fwd_words word.now }
{
    FWD_KEYS.find(word)
}
