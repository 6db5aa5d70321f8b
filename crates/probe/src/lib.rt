// Parts of the library opened as C functions, for the comparison with the independent model. No part of the product.
#![tactic(auto)]

ghost use Rattle.std.specs.Prelude.{◌≡◌, ◌≤◌};
ghost use Rattle.writing.specs.Clear.{Cleared, clear_of};
ghost use Rattle.survey.specs.Survey.{used_in, lowest_free, root_of, kind_of, largest_timestamp};
ghost use Rattle.probe.specs.Probe.{distance_probe, judge_probe, asked, slot_question};
ghost use Rattle.probe.specs.Tells.{Tells, Small, Widened};

use refusals::limit::SIGNATURE;
use survey::Findings;
use table::RECORD;

// A C function answers a number.
const NO_ANSWER: u32 = 4294967295;

// The distance of two signatures.
#[unsafe(no_mangle)]
pub extern "C" fn probe_distance(kind: u8, a: &[u8], b: &[u8]) -> u32
    ensures { result ≡ distance_probe kind a.now b.now }
{
    let whole = (a.len() == SIGNATURE) & (b.len() == SIGNATURE);
    if distance::known_kind(kind) & whole {
        distance::apart(
            kind,
            distance::signature_at(a, 0),
            distance::signature_at(b, 0),
        )
    } else {
        NO_ANSWER
    }
}

// How a table is judged.
#[unsafe(no_mangle)]
pub extern "C" fn probe_judge(t: &[u8]) -> u32
    ensures { result ≡ judge_probe t.now }
{
    u32::from(refusals::told(admission::admit(t)))
}

// Clears a table.
#[unsafe(no_mangle)]
pub extern "C" fn probe_clear(t: &mut [u8]) -> u32
    ensures { ◌≡◌ {A = Cleared} (record { refusal = result; table = t.new }) (clear_of t.old) }
{
    u32::from(refusals::told(writing::clear(t)))
}

// The answers to the small questions, as numbers of one width.
#[derive(Clone, Copy)]
struct Told {
    used: u32,
    lowest: u32,
    largest: u32,
    root: u32,
    kind: u32,
}

// Of findings in a table of n records: slots and counts are at most its records, and n stands for no slot.
fn widened(n: usize, f: Findings) -> Told
    requires { Small n f }
    ensures { Widened n f result }
{
    Told {
        used: f.used as u32,
        lowest: f.lowest.unwrap_or(n) as u32,
        largest: f.largest,
        root: f.root.unwrap_or(n) as u32,
        kind: u32::from(f.kind),
    }
}

// The small questions, asked of a table that is judged first.
fn tell(t: &[u8]) -> Told
    ensures { Tells t.now result }
{
    match admission::admit(t) {
        Ok(found) => widened(t.len() / RECORD, found),
        Err(_) => Told {
            used: NO_ANSWER,
            lowest: NO_ANSWER,
            largest: NO_ANSWER,
            root: NO_ANSWER,
            kind: NO_ANSWER,
        },
    }
}

#[unsafe(no_mangle)]
pub extern "C" fn probe_used(t: &[u8]) -> u32
    ensures { result ≡ asked t.now used_in }
{
    tell(t).used
}

#[unsafe(no_mangle)]
pub extern "C" fn probe_lowest_free(t: &[u8]) -> u32
    ensures { result ≡ asked t.now lowest_free }
{
    tell(t).lowest
}

#[unsafe(no_mangle)]
pub extern "C" fn probe_largest_timestamp(t: &[u8]) -> u32
    ensures { result ≡ asked t.now largest_timestamp }
{
    tell(t).largest
}

#[unsafe(no_mangle)]
pub extern "C" fn probe_root(t: &[u8]) -> u32
    ensures { result ≡ asked t.now root_of }
{
    tell(t).root
}

#[unsafe(no_mangle)]
pub extern "C" fn probe_kind(t: &[u8]) -> u32
    ensures { result ≡ asked t.now kind_of }
{
    tell(t).kind
}

#[unsafe(no_mangle)]
pub extern "C" fn probe_slot_of(t: &[u8], card: u32) -> u32
    ensures { result ≡ asked t.now (slot_question card) }
{
    let n = t.len() / RECORD;
    match admission::admit(t) {
        Ok(_) => {
            if card == 0 {
                return n as u32;
            }
            survey::slot_of_card(t, n, card).unwrap_or(n) as u32
        }
        Err(_) => NO_ANSWER,
    }
}
