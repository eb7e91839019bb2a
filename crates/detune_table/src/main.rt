//! Prints the table of cents from its rule (docs/REFERENCE.md, 'Detune in cents'): 1,200 lines, entry 0 first. A
//! lower bound of 2^(c/1200) × 2^62 is multiplied on from entry to entry; its upper 31 digits are the entry. No
//! table is read.
#![tactic(auto)]

ghost use Rattle.std.specs.Prelude.{◌≡◌, ◌*◌, ◌/◌, ◌^◌, ◌<◌, ◌≤◌, take, OnOk};
ghost use Rattle.std.specs.Io.KnownBytes.{Appends};
ghost use Rattle.detune.specs.Table.{entries};
ghost use Rattle.detune_table.specs.Statement.{Generated};
ghost use Rattle.detune_table.specs.Text.{table_text};

use std::io::{self, Write};

// Room for the lines: a line has at most 21 bytes.
const ROOM: usize = 25_200;

// 2^62.
const ONE: u64 = 0x4000_0000_0000_0000;

// 2^(1/1200) × 2^62 rounded down.
const LOW: u64 = 4_614_350_602_216_361_008;

// a times b over 2^62, rounded down.
fn scaled(a: u64, b: u64) -> u64
    requires { (a < 2 ^ 63) × (b < 2 ^ 63) }
    ensures { result ≡ a * b / 2 ^ 62 }
{
    (u128::from(a) * u128::from(b) / u128::from(ONE)) as u64
}

// What is found obeys the rule, and is the table.
#[tactic(auto, using(crate::proofs::Found::generated))]
fn generated()
    ensures { Generated }
{
    detune::the_table();
}

// Stores the text of the table, and returns its length: there is no heap for a `Vec`.
#[tactic(auto, using(crate::proofs::Found::lower_fits), unfolding(crate::specs::Bounds::lower))]
fn put_table(out: &mut [u8; ROOM]) -> usize
    ensures { (result ≤ 25200) × (take result out.new ≡ table_text entries) }
{
    generated();
    let mut at = 0;
    let mut bound = ONE;
    for _entry in 0..1_200_u32 {
        at += text::number_line((bound >> 32) as usize, &mut out[at..]).unwrap_or(0);
        bound = scaled(bound, LOW);
    }
    at
}

// Writes the text of the table behind what the writer holds, or fails with the writer's error.
fn print_table<W: Write>(to: &mut W) -> io::Result<()>
    ensures { OnOk result (Appends (W.contents to.old) (W.contents to.new) (table_text entries)) }
{
    let mut out = [0; ROOM];
    let n = put_table(&mut out);
    to.write_all(&out[..n])
}

fn main(rt: HostRuntime) -> io::Result<()> {
    print_table(&mut io::writer(&rt))
}
