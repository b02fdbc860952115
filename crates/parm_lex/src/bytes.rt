// Kinds of bytes, and runs of them.
ghost use Rattle.std.specs.Prelude.{◌≡◌, ◌≤◌, length, nat_eq, not};
ghost use Rattle.std.specs.List.{position, position_or_len};
ghost use Rattle.parm_lex.specs.Bytes.{is_blank, is_printable, is_bare, is_inside, blanks_off, bare_len, inside_len, is_word, word_len, cr_off, is_skipped, line_len};

pub fn is_blank(byte: u8) -> bool
    ensures { result ≡ is_blank byte }
{
    byte == b' ' || byte == b'\t'
}

pub fn is_printable(byte: u8) -> bool
    ensures { result ≡ is_printable byte }
{
    byte >= 0x20 && byte <= 0x7e
}

/// A byte of a quoted item.
pub fn is_inside(byte: u8) -> bool
    ensures { result ≡ is_inside byte }
{
    is_printable(byte) && byte != b'"'
}

/// A byte of a bare item.
pub fn is_bare(byte: u8) -> bool
    ensures { result ≡ is_bare byte }
{
    is_inside(byte) && byte != b' ' && byte != b',' && byte != b'(' && byte != b')'
}

fn first_not_bare(bytes: &[u8]) -> Option<usize>
    ensures { result ≡ position (λ byte. not (is_bare byte)) bytes.now }
{
    bytes.iter().position(|byte| !is_bare(*byte))
}

#[tactic(auto, using(crate::proofs::Runs::run_end, crate::proofs::Runs::run_within))]
pub fn bare_len(bytes: &[u8]) -> usize
    ensures value { result ≡ bare_len bytes.now }
    ensures within { result ≤ length bytes.now }
{
    first_not_bare(bytes).unwrap_or(bytes.len())
}

fn first_not_inside(bytes: &[u8]) -> Option<usize>
    ensures { result ≡ position (λ byte. not (is_inside byte)) bytes.now }
{
    bytes.iter().position(|byte| !is_inside(*byte))
}

#[tactic(auto, using(crate::proofs::Runs::run_end, crate::proofs::Runs::run_within))]
pub fn inside_len(bytes: &[u8]) -> usize
    ensures value { result ≡ inside_len bytes.now }
    ensures within { result ≤ length bytes.now }
{
    first_not_inside(bytes).unwrap_or(bytes.len())
}

fn first_not_blank(bytes: &[u8]) -> Option<usize>
    ensures { result ≡ position (λ byte. not (is_blank byte)) bytes.now }
{
    bytes.iter().position(|byte| !is_blank(*byte))
}

#[tactic(auto, using(crate::proofs::Runs::run_end, crate::proofs::Runs::run_within))]
fn blank_len(bytes: &[u8]) -> usize
    ensures value { result ≡ position_or_len (λ byte. not (is_blank byte)) bytes.now }
    ensures within { result ≤ length bytes.now }
{
    first_not_blank(bytes).unwrap_or(bytes.len())
}

/// The bytes behind the blanks.
#[tactic(auto, unfolding(crate::specs::Bytes::blanks_off))]
pub fn blanks_off(bytes: &[u8]) -> &[u8]
    ensures value { result.now ≡ blanks_off bytes.now }
    ensures no_longer { length result.now ≤ length bytes.now }
{
    &bytes[blank_len(bytes)..]
}

/// A byte of a word.
fn is_word(byte: u8) -> bool
    ensures { result ≡ is_word byte }
{
    (byte >= b'a' && byte <= b'z')
        || (byte >= b'A' && byte <= b'Z')
        || (byte >= b'0' && byte <= b'9')
        || byte == b'_'
}

fn first_not_word(bytes: &[u8]) -> Option<usize>
    ensures { result ≡ position (λ byte. not (is_word byte)) bytes.now }
{
    bytes.iter().position(|byte| !is_word(*byte))
}

#[tactic(auto, using(crate::proofs::Runs::run_end, crate::proofs::Runs::run_within))]
pub fn word_len(bytes: &[u8]) -> usize
    ensures value { result ≡ word_len bytes.now }
    ensures within { result ≤ length bytes.now }
{
    first_not_word(bytes).unwrap_or(bytes.len())
}

fn first_feed(bytes: &[u8]) -> Option<usize>
    ensures { result ≡ position (λ byte. nat_eq byte 10) bytes.now }
{
    bytes.iter().position(|byte| *byte == b'\n')
}

/// How many bytes stand before the first LF.
#[tactic(auto, using(crate::proofs::Runs::run_end, crate::proofs::Runs::run_within))]
pub fn line_len(bytes: &[u8]) -> usize
    ensures value { result ≡ line_len bytes.now }
    ensures within { result ≤ length bytes.now }
{
    first_feed(bytes).unwrap_or(bytes.len())
}

/// A line without the CR at its end.
#[tactic(auto, unfolding(crate::specs::Bytes::cr_off))]
pub fn cr_off(line: &[u8]) -> &[u8]
    ensures value { result.now ≡ cr_off line.now }
    ensures no_longer { length result.now ≤ length line.now }
{
    match line.split_last() {
        Some((b'\r', text)) => text,
        _ => line,
    }
}

/// Whether a line is skipped, from its first byte that is no blank.
pub fn is_skipped(bytes: &[u8]) -> bool
    ensures { result ≡ is_skipped bytes.now }
{
    match bytes {
        [] => true,
        [byte, ..] => *byte == b'#' || *byte == b'*' || *byte == b'/',
    }
}
