// Edits as values, and whole lists of them.
ghost use Rattle.std.specs.Prelude.{◌≡◌, ◌+◌, ◌≤◌, [], ◌++◌, length, IfOk, vec_len, vec_capacity, MatchResult};
ghost use Rattle.draft.specs.Plain.{Answered};
ghost use Rattle.draft.specs.Edits.{edited, fed, answers, Fed};

use crate::draft::{Draft, MOST_LINES};
use fault::Fault;
use std::alloc::{AllocError, Global};

// One call that changes a draft.
#[derive(Clone, Copy, PartialEq, Eq, Debug)]
pub enum Edit<'a> {
    Add(&'a [u8]),
    Mend(usize, &'a [u8]),
    Strike,
}

impl Draft {
    // Makes the call that the edit stands for.
    pub fn apply(&mut self, edit: Edit<'_>) -> Result<usize, Fault>
        ensures value { Answered (edited edit.entry self.old) result self.new }
        ensures few { length self.new ≤ 96 }
    {
        match edit {
            Edit::Add(text) => self.add(text),
            Edit::Mend(number, text) => self.mend(number, text),
            Edit::Strike => self.strike(),
        }
    }

    // Makes the calls in their order, and puts the answer to each behind those that are there.
    // No chain of iterators: a closure that changes the draft leaves a proof knowing nothing of the draft.
    fn feed(&mut self, edits: &[Edit<'_>], said: &mut Vec<Result<usize, Fault>>)
        requires { vec_len said.old + length edits.now ≤ vec_capacity said.old }
        ensures lines { self.new ≡ fed edits.now self.old }
        ensures said { said.new.items ≡ said.old.items ++ answers edits.now self.old }
        ensures few { length self.old ≤ 96 → length self.new ≤ 96 }
    {
        for edit in edits {
            said.push_reserved(self.apply(*edit));
        }
    }

    // Makes the calls in their order and gives the answer to each. Memory for the answers is had first:
    // where there is none, no call is made.
    pub fn apply_all(
        &mut self,
        heap: Global,
        edits: &[Edit<'_>],
    ) -> Result<Vec<Result<usize, Fault>>, AllocError>
        ensures value { MatchResult result (λ v. Fed edits.now self.old self.new v.items) (λ _. self.new ≡ self.old) }
        ensures few { length self.new ≤ 96 }
    {
        // So that clause `few` is known too where there is no memory for the answers.
        prove!(self.len() <= MOST_LINES);
        let mut said = Vec::with_capacity(heap, edits.len())?;
        self.feed(edits, &mut said);
        Ok(said)
    }
}

// A draft, and what was answered to each edit that made it.
#[derive(Drop)]
pub struct Replayed {
    pub draft: Draft,
    pub answers: Vec<Result<usize, Fault>>,
}

// Makes the calls in their order on a draft that opens empty.
pub fn replay(heap: Global, edits: &[Edit<'_>]) -> Result<Replayed, AllocError>
    ensures value { IfOk result (λ p. Fed edits.now [] p.draft p.answers.items) }
    ensures few { IfOk result (λ p. length p.draft ≤ 96) }
{
    let mut draft = Draft::new(heap)?;
    let answers = draft.apply_all(heap, edits)?;
    Ok(Replayed { draft, answers })
}
