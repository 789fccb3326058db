//! Decodes one vector so many times, by projections or by the table of syndromes, and prints how often it was clean, was
//! corrected and was damaged. What it costs is counted from outside: `bench/decoders` runs it.
#![tactic(auto)]

ghost use Rattle.std.specs.Prelude.{◌≡◌, IfSome};
ghost use Rattle.number_theory.specs.Residue.{AreResidues};
ghost use Rattle.moduli_sets.specs.Moduli.{set_of};

use moduli_sets::{Moduli, SetName, Vector};
use redundant_decoder::{Decoder, Projecting, Verdict};
use std::{env, io};
use syndrome_table::Syndromes;
use word_readers::{residues_in, steps_in};

/// What words ask for.
#[derive(Drop)]
struct Job {
    set: Moduli,
    by_table: bool,
    times: u64,
    vector: Vector,
}

/// How many verdicts there were of each kind.
#[derive(Clone, Copy, Debug)]
struct Tally {
    clean: u64,
    corrected: u64,
    damaged: u64,
}

/// The job of the words: a set, `table` or `projections`, how many times, and a residue for each channel.
fn job_of(words: &[String]) -> Option<Job>
    ensures { IfSome result (λ job. AreResidues (set_of job.set).moduli job.vector) }
{
    if words.len() < 3 {
        return None;
    }
    let set = Moduli::of(SetName::named(words[0].as_bytes())?);
    let by_table = match words[1].as_bytes() {
        b"table" => true,
        b"projections" => false,
        _ => return None,
    };
    let times = steps_in(words[2].as_bytes())?;
    let vector = residues_in(&set, &words[3..])?;
    Some(Job {
        set,
        by_table,
        times,
        vector,
    })
}

/// The verdicts on one vector and on another, in turn.
fn verdicts_of<D: Decoder>(decoder: &D, even: &Vector, odd: &Vector, times: u64) -> Tally
    requires even { AreResidues (D.set decoder.now).moduli even.now }
    requires odd { AreResidues (D.set decoder.now).moduli odd.now }
{
    let mut tally = Tally {
        clean: 0,
        corrected: 0,
        damaged: 0,
    };
    for n in 0..times {
        let vector = if n % 2 == 0 { even } else { odd };
        let kind = match decoder.decode(vector) {
            Verdict::Clean(_) => &mut tally.clean,
            Verdict::Corrected(_, _) => &mut tally.corrected,
            Verdict::Damaged => &mut tally.damaged,
        };
        *kind = kind.saturating_add(1);
    }
    tally
}

fn main(rt: HostRuntime) -> io::Result<()> {
    let words: Vec<String> = env::args(&rt)?.skip(1).collect(rt.alloc())?;
    let Some(job) = job_of(words.as_slice()) else {
        println!(rt; "decoder_costs SET table|projections TIMES RESIDUE ..")?;
        return Ok(());
    };
    // The same vector at another place, so that no compiler decodes it once for all turns.
    let again = job.vector.clone()?;
    let tally = if job.by_table {
        let table = Syndromes::build(rt.alloc(), &job.set)?;
        verdicts_of(&table, &job.vector, &again, job.times)
    } else {
        verdicts_of(&Projecting::of(&job.set), &job.vector, &again, job.times)
    };
    println!(rt;
        "clean {}, corrected {}, damaged {}",
        tally.clean, tally.corrected, tally.damaged
    )?;
    Ok(())
}
