//! The commands `encode` and `set`: an integer as residues, and what a set of moduli is. They take no memory.
ghost use Rattle.std.specs.Prelude.{◌≡◌, ◌≤◌, ◌++◌, length};
ghost use Rattle.moduli_sets.specs.Moduli.{set_of};
ghost use Rattle.moduli_sets.specs.Set.{IsInRange};
ghost use Rattle.number_text.specs.Lines.{line};
ghost use Rattle.job_endings.specs.Endings.{EndsPut};
ghost use Rattle.job_endings.specs.Numbers.{numbers_text};
ghost use Rattle.set_commands.specs.Sets.{encode_lines, information_line, range_line, set_lines};

use job_endings::{Status, put_lines, with_numbers};
use moduli_sets::{Moduli, Vector};
use number_text::Line;
use outside::Sink;

/// Puts the residues of x, which is in range.
pub fn encode<K: Sink>(set: &Moduli, x: i128, sink: &mut K) -> Status
    requires { IsInRange (set_of set.now) x }
    ensures { EndsPut K.puts K.state sink.old (encode_lines (set_of set.now) x) Status.Ok result sink.new }
{
    put_lines(sink, &[numbers_line(b"", &set.residues_of(x))], Status::Ok)
}

/// Puts the moduli of a set, the number of its information moduli and its range.
pub fn describe<K: Sink>(set: &Moduli, sink: &mut K) -> Status
    ensures { EndsPut K.puts K.state sink.old (set_lines (set_of set.now)) Status.Ok result sink.new }
{
    put_lines(
        sink,
        &[
            numbers_line(b"moduli ", &moduli_of(set)),
            information_line(set),
            range_line(set),
        ],
        Status::Ok,
    )
}

/// The moduli of a set, in order.
fn moduli_of(set: &Moduli) -> Vector
    ensures { result ≡ (set_of set.now).moduli }
{
    set.rules();
    let mut moduli = Vector::new();
    for i in 0..set.count() {
        moduli.push(set.modulus(i));
    }
    moduli
}

/// The line `information k`.
fn information_line(set: &Moduli) -> Line
    ensures { result ≡ information_line (set_of set.now) }
{
    Line::of(b"information ").count(set.info() as u64).end()
}

/// The line `range -B..B`.
fn range_line(set: &Moduli) -> Line
    ensures { result ≡ range_line (set_of set.now) }
{
    Line::of(b"range ")
        .integer(-set.bound())
        .text(b"..")
        .integer(set.bound())
        .end()
}

/// A line of numbers, one space apart, after a word.
fn numbers_line(word: &[u8], numbers: &Vector) -> Line
    requires { length word.now ≤ 16 }
    ensures { result ≡ line (word.now ++ numbers_text numbers.now) }
{
    with_numbers(Line::of(word), numbers).end()
}
