//! Where bytes stand in physical lines.

ghost use Rattle.std.specs.Prelude.{◌≡◌, ◌≤◌, ◌+◌, ◌-◌, length};
ghost use Rattle.sudoers_text.specs.Fault.{lf_count};
ghost use Rattle.sudoers_tree.specs.Physical.{column_behind};

use memchr::{memchr_iter, memrchr};

/// Returns the number of LF in `bytes`.
pub fn lf_count(bytes: &[u8]) -> usize
    ensures count { result ≡ lf_count bytes.now }
    ensures within { result ≤ length bytes.now }
{
    let mut count = 0;
    for _ in memchr_iter(b'\n', bytes) {
        count += 1;
    }
    count
}

/// Returns the column of the byte after `bytes`, from 1.
pub fn column_behind(bytes: &[u8]) -> usize
    ensures { result ≡ column_behind bytes.now }
{
    match memrchr(b'\n', bytes) {
        Some(at) => bytes.len() - at,
        None => bytes.len() + 1,
    }
}
