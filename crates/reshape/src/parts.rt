//! An output that is written part by part.
ghost use Rattle.std.specs.Prelude.{◌≡◌, ℕ, ◌*◌, ◌<◌, List, length};
ghost use Rattle.buffer.specs.Channels.{channel};
ghost use Rattle.lists.specs.Rows.{rows};

/// Writes each of `count` parts of `size` frames, one after another, by a call with its number: part c is then f c of
/// what it was. By index, since `chunks_exact_mut` asks that a part has a frame.
pub(crate) fn write_parts<F: Fn(&mut [u32], usize)>(
    out: &mut [u32],
    size: usize,
    count: usize,
    write: F,
)
    requires full { length out.old ≡ size * count }
    requires callable { (part : _) (c : ℕ) → c < count → length part.now ≡ size → F.pre write part c }
    ensures { (f : ℕ → List ℕ → List ℕ)
        → ((part : _) (c : ℕ) (after : _) → c < count → length part.now ≡ size
        → F.post write part c tt after → after.now ≡ f c part.now)
        → ((c : ℕ) (part : List ℕ) → c < count → length part ≡ size → length (f c part) ≡ size)
        → out.new ≡ rows count (λ c. f c (channel out.old size c)) }
{
    for c in 0..count {
        let at = size * c;
        write(&mut out[at..at + size], c);
    }
}
