//! What each sample of a block plays, in arrays.
ghost use Rattle.std.specs.Prelude.{◌≡◌, cond, ◌+◌, ◌<◌};
ghost use Rattle.sub_sample.specs.SubSample.{head_at, before_start};
ghost use Rattle.sub_sample.specs.Infos.{frame_of, fraction_of, infos_of};

use super::{Filled, Infos, PlaybackInfo, Playhead, Settings};

// The frame and the fraction that stand in the arrays: 0 where a sample plays nothing.
fn frame_and_fraction(info: Option<PlaybackInfo>) -> (usize, f64)
    ensures { (result.0 ≡ frame_of info) × (result.1 ≡ fraction_of info) }
{
    match info {
        Some(
            PlaybackInfo {
                prev_frame_index,
                k,
            },
        ) => (prev_frame_index.0, k),
        None => (0, 0.0),
    }
}

// One sample more where the playhead after it hasn't started.
fn grown_before(before: usize, h: Playhead) -> usize
    requires { before < 128 }
    ensures { result ≡ cond h.started before (before + 1) }
{
    if h.started { before } else { before + 1 }
}

/// What each of the 128 samples of a block plays, from the playhead `h` on, the playhead after them, and how many of
/// them come before the starting one.
#[tactic(auto, using(lists::specs::Table::filled_none, lists::specs::Table::filled_more), unfolding(crate::specs::SubSample::head_at, crate::specs::SubSample::before_start))]
pub fn fill_infos(s: Settings, h: Playhead) -> Filled
    ensures { (result.infos ≡ infos_of 128 s h) × (result.head ≡ head_at s h 128)
        × (result.before_start ≡ before_start s h 128) }
{
    let mut frame = [0usize; 128];
    let mut fraction = [0.0f64; 128];
    let mut present = [false; 128];
    let mut head = h;
    let mut before_start = 0;
    for i in 0..128 {
        let next = s.step(i, head);
        (frame[i], fraction[i]) = frame_and_fraction(next.info);
        present[i] = next.info.is_some();
        head = next.head;
        before_start = grown_before(before_start, head);
    }
    let infos = Infos {
        frame,
        fraction,
        present,
    };
    Filled {
        infos,
        head,
        before_start,
    }
}
