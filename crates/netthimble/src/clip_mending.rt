//! Mending a clip file (docs/REFERENCE.md, 'Mending').
ghost use Rattle.std.specs.Prelude.{◌≡◌, length};
ghost use Rattle.mending.specs.Mending.{mend_answer, mend_out};
ghost use Rattle.netthimble.specs.Mending.{mended_for};

use buffer::Refusal;
use mending::{Marks, Mended};

/// What mending a clip file altered; or the number of the refusal beside zeros.
#[repr(C)]
#[derive(Clone, Copy)]
pub struct MendedClip {
    /// The bytes of the mended file.
    pub length: usize,
    /// The leftover bytes at the end that were dropped.
    pub tail_size: usize,
    /// What was altered.
    pub marks: Marks,
    /// The number of the refusal, 0 for none.
    pub refusal: u32,
}

impl From<Result<Mended, Refusal>> for MendedClip {
    ghost use Rattle.std.specs.Prelude.{◌≡◌};
    ghost use Rattle.netthimble.specs.Mending.{mended_for};

    ghost from_gives = { λ answer clip. clip ≡ mended_for answer };

    fn from(answer: Result<Mended, Refusal>) -> Self {
        match answer {
            Ok(mended) => Self {
                length: mended.length,
                tail_size: mended.tail_size,
                marks: mended.marks,
                refusal: 0,
            },
            Err(refusal) => Self {
                length: 0,
                tail_size: 0,
                marks: Marks {
                    frames: false,
                    offsets: false,
                    tail: false,
                    onset: false,
                },
                refusal: refusal.number(),
            },
        }
    }
}

/// Makes the header of a clip file fit the bytes that stand behind it, and stores the mended file at
/// the start of `out`, which is just as long as `file`. Refused: 15, 1, 2, 21, 8.
#[unsafe(no_mangle)]
pub extern "C" fn netthimble_clip_mend(file: &[u8], out: &mut [u8]) -> MendedClip
    ensures { (result ≡ mended_for (mend_answer file.now (length out.old)))
        × (out.new ≡ mend_out (mend_answer file.now (length out.old)) file.now out.old) }
{
    mending::mend(file, out).into()
}
