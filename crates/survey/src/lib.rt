// The small questions that the calls ask of a table.
#![tactic(auto)]

ghost use Rattle.table.specs.Record.{record_of};
ghost use Rattle.table.specs.Stands.{StandTo};
ghost use Rattle.survey.specs.Survey.{slot_of_card};
ghost use Rattle.survey.specs.Answers.{Tells};

// What the pass over a table finds: how many records are used, the lowest free slot, if one is free, the largest
// timestamp in use, the root's slot, if there is a root, and the kind, which is 0 in a free table, as `kind_of` has it.
#[derive(Clone, Copy)]
pub struct Findings {
    pub used: usize,
    pub lowest: Option<usize>,
    pub largest: u32,
    pub root: Option<usize>,
    pub kind: u8,
}

// The first slot in which the card stands, if it stands in one. At each turn no slot before s has it.
pub fn slot_of_card(t: &[u8], n: usize, card: u32) -> Option<usize>
    requires { StandTo t.now n }
    ensures { Tells n (slot_of_card n (record_of t.now) card) result }
{
    for s in 0..n {
        if table::card_of(t, s) == card {
            return Some(s);
        }
    }
    None
}
