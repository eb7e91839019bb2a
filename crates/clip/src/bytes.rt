//! Little-endian numbers in a file's bytes.
ghost use Rattle.std.specs.Prelude.{◌≡◌, ◌+◌, ◌*◌, ◌<◌, length, get_or};
ghost use Rattle.lists.specs.Table.{table, over};
ghost use Rattle.clip.specs.Layout.{words};
ghost use Rattle.clip.specs.Reading.{number_at, frames_from};

// The byte at a place, 0 past the end.
fn byte_at(file: &[u8], at: usize) -> u8
    ensures { result ≡ get_or file.now at 0 }
{
    file.get(at).copied().unwrap_or(0)
}

// The N bytes from a place on.
#[tactic(auto, using(lists::specs::Table::filled_none, lists::specs::Table::filled_more))]
fn bytes_at<const N: usize>(file: &[u8], at: usize) -> [u8; N]
    requires { at + N < 18446744073709551616 }
    ensures { result ≡ table N (λ i. get_or file.now (at + i) 0) }
{
    let mut bytes = [0; N];
    for (i, byte) in bytes.iter_mut().enumerate() {
        *byte = byte_at(file, at + i);
    }
    bytes
}

// Two readers, since `from_le_bytes` is each type's own, and no trait has it. Within the file the
// bytes are taken as they stand; past its end `bytes_at` has zeros.
#[tactic(auto, using(crate::proofs::Numbers::number_two), unfolding(lists::specs::Table::table))]
pub(crate) fn u16_at(file: &[u8], at: usize) -> u16
    requires { at < 4294967296 }
    ensures { result ≡ number_at 2 file.now at }
{
    if at + 2 <= file.len() {
        return u16::from_le_bytes([file[at], file[at + 1]]);
    }
    u16::from_le_bytes(bytes_at(file, at))
}

#[tactic(auto, using(crate::proofs::Numbers::number_two, crate::proofs::Numbers::number_four), unfolding(lists::specs::Table::table))]
pub(crate) fn u32_at(file: &[u8], at: usize) -> u32
    requires { at < 4294967296 }
    ensures { result ≡ number_at 4 file.now at }
{
    if at + 4 <= file.len() {
        return u32::from_le_bytes([file[at], file[at + 1], file[at + 2], file[at + 3]]);
    }
    u32::from_le_bytes(bytes_at(file, at))
}

// Stores the numbers that stand in `file` from `start` on.
#[tactic(auto, using(lists::specs::Table::filled_none, lists::specs::Table::filled_more, lists::specs::Table::filled_end))]
pub(crate) fn read_words(file: &[u8], start: usize, out: &mut [u32])
    requires { start + 4 * length out.old < 4294967294 }
    ensures { out.new ≡ frames_from file.now start (length out.old) }
{
    for (i, word) in out.iter_mut().enumerate() {
        *word = u32_at(file, start + 4 * i);
    }
}

/// Stores the bytes of each number, one number after another, as far as the slice goes.
#[tactic(auto, using(lists::specs::Table::filled_none, lists::specs::Table::filled_more))]
pub fn write_words(numbers: &[u32], out: &mut [u8])
    ensures { out.new ≡ over (words numbers.now) out.old }
{
    let count = out.len().min(4 * numbers.len());
    for i in 0..count {
        out[i] = numbers[i / 4].to_le_bytes()[i % 4];
    }
}
