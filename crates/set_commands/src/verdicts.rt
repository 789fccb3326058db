//! The command `decode`: what a vector stands for. It takes no memory.
ghost use Rattle.std.specs.Prelude.{◌≡◌, None};
ghost use Rattle.number_theory.specs.Residue.{AreResidues};
ghost use Rattle.moduli_sets.specs.Moduli.{set_of};
ghost use Rattle.moduli_sets.specs.Set.{radius};
ghost use Rattle.redundant_decoder.specs.declared.decoder.Verdict.{Verdict};
ghost use Rattle.redundant_decoder.specs.Verdict.{IsVerdict};
ghost use Rattle.job_endings.specs.Endings.{EndsPut};
ghost use Rattle.set_commands.specs.Decode.{verdict_line, verdict_lines, verdict_status};

use job_endings::{Status, put_lines};
use moduli_sets::{Moduli, Vector};
use number_text::Line;
use outside::Sink;
use redundant_decoder::{Decoder, Projecting, Verdict};

/// Puts what a vector stands for. It has one residue for each channel, below its modulus.
pub fn decode<K: Sink>(set: &Moduli, residues: &Vector, sink: &mut K) -> Status
    requires { AreResidues (set_of set.now).moduli residues.now }
    ensures { (verdict : Verdict) × IsVerdict (radius (set_of set.now)) None (set_of set.now) residues.now verdict
        × EndsPut K.puts K.state sink.old (verdict_lines verdict) (verdict_status verdict) result sink.new }
{
    let verdict = Projecting::of(set).decode(residues);
    put_lines(sink, &[verdict_line(&verdict)], verdict_status(&verdict))
}

/// The line of a verdict: `clean X`, `corrected X I` or `damaged`.
fn verdict_line(verdict: &Verdict) -> Line
    ensures { result ≡ verdict_line verdict.now }
{
    match *verdict {
        Verdict::Clean(x) => Line::of(b"clean ").integer(x).end(),
        Verdict::Corrected(x, i) => Line::of(b"corrected ")
            .integer(x)
            .text(b" ")
            .count(i as u64)
            .end(),
        Verdict::Damaged => Line::of(b"damaged").end(),
    }
}

/// How a job ends that printed this verdict.
fn verdict_status(verdict: &Verdict) -> Status
    ensures { result ≡ verdict_status verdict.now }
{
    match verdict {
        Verdict::Clean(_) | Verdict::Corrected(..) => Status::Ok,
        Verdict::Damaged => Status::Damage,
    }
}
