//! A text as it is printed into a lent slice, byte after byte. By hand, and not by `write!`: each
//! byte is promised, and std states no bytes of `{:08X}`, nor that a `write!` succeeds.
ghost use Rattle.std.specs.Prelude.{◌≡◌, ◌<◌, [], ◌∷◌};
ghost use Rattle.commands.specs.Digits.{digit, hex, decimal};
ghost use Rattle.text.specs.Lines.{field};
ghost use Rattle.text.specs.Stored.{stored, stored_of, Prints};

// The first `len` bytes of `out` are printed. A byte that has no room is left out.
#[derive(Drop)]
pub(crate) struct Text<'a> {
    out: &'a mut [u8],
    len: usize,
}

// The byte of a digit below 16.
#[tactic(auto, unfolding(commands::specs::Digits::digit))]
fn digit(d: u8) -> u8
    requires { d < 16 }
    ensures { result ≡ digit d }
{
    if d < 10 { b'0' + d } else { b'A' + (d - 10) }
}

impl<'a> Text<'a> {
    pub(crate) fn new(out: &'a mut [u8]) -> Text<'a>
        ensures nothing { stored_of result ≡ stored out.old 0 }
        ensures same_slice { result.out.ghost_name ≡ out.entry.ghost_name }
    {
        Text { out, len: 0 }
    }

    // How many bytes were printed.
    pub(crate) fn len(&self) -> usize
        ensures { result ≡ self.now.len }
    {
        self.len
    }

    #[tactic(auto, unfolding(crate::specs::Stored::put, crate::specs::Stored::put_byte))]
    pub(crate) fn byte(&mut self, b: u8)
        ensures { Prints self.old self.new (b ∷ []) }
    {
        if self.len < self.out.len() {
            self.out[self.len] = b;
            self.len += 1;
        }
    }

    // Eight hex digits.
    #[tactic(auto, using(crate::proofs::Texts::hex_more, crate::proofs::Texts::hex_done), unfolding(crate::specs::Stored::put))]
    pub(crate) fn hex(&mut self, v: u32)
        ensures { Prints self.old self.new (hex 8 v) }
    {
        for i in (0..8u32).rev() {
            self.byte(digit(((v >> (4 * i)) % 16) as u8));
        }
    }

    #[tactic(auto, using(crate::proofs::Texts::put_append, crate::proofs::Texts::decimal_more, crate::proofs::Texts::decimal_less), unfolding(crate::specs::Stored::put))]
    pub(crate) fn decimal(&mut self, v: usize)
        ensures { Prints self.old self.new (decimal v) }
    {
        if v >= 10 {
            self.decimal(v / 10);
        }
        self.byte(digit((v % 10) as u8));
    }

    // A decimal and the byte after it.
    #[tactic(auto, using(crate::proofs::Texts::put_append), unfolding(crate::specs::Lines::field))]
    pub(crate) fn field(&mut self, v: usize, after: u8)
        ensures { Prints self.old self.new (field v after) }
    {
        self.decimal(v);
        self.byte(after);
    }
}
