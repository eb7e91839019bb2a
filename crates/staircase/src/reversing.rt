//! The changes of direction in a list of levels.
ghost use Rattle.std.specs.Prelude.{◌≡◌, cond, eqb, ltb, None, Some};
ghost use Rattle.staircase.specs.Reversals.{reversals};

// Where a level goes next: up, or down, or none where it stays.
fn direction(level: u8, next: u8) -> Option<bool>
    ensures { result ≡ cond (eqb next level) None (Some (ltb level next)) }
{
    if next == level {
        None
    } else {
        Some(level < next)
    }
}

// How often the levels change their direction: moves up and down alone count, and a level that stays is none.
pub(crate) fn reversals(levels: &[u8]) -> usize
    ensures { result ≡ reversals levels.now }
{
    let mut level = levels.first().copied().unwrap_or(0);
    let mut last = None;
    let mut found = 0;
    for next in levels {
        if let Some(is_up) = direction(level, *next) {
            if last == Some(!is_up) {
                found += 1;
            }
            last = Some(is_up);
            level = *next;
        }
    }
    found
}
