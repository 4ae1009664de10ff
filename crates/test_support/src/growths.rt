//! Growths of memory that are refused, one after another. A test asks for a refusal by requesting a size of memory that nothing else
//! requests, and `tools/refuse-growths` carries it out: it refuses each growth of each call, first alone and then with all later
//! ones. Without that tool nothing is refused, and a test only checks that each call returns with ample memory.

use crate::masks::BOTH;
use crate::sets::{Set, SetLines};
use std::alloc::{AllocError, Global};
use std::fmt::Debug;
use tl_layout::Mask;

/// A request of this size plus n bytes refuses the n-th growth from here.
const ALONE: usize = 70_368_744_177_664;

/// A request of this size plus n bytes refuses the n-th growth from here and all later ones.
const WITH_LATER_ONES: usize = 140_737_488_355_328;

/// A request of this size refuses a growth that no call reaches.
pub const NONE: usize = 70_373_039_144_959;

/// A request of this size ends the refusals. It succeeds exactly if no growth was refused.
const NO_MORE: usize = 40_961;

/// More growths than a call has.
const MANY: usize = 1000;

/// Refuses growths from here on, as requested.
pub fn refuse(alloc: Global, asked: usize) {
    let _ = Vec::<u8>::with_capacity(alloc, asked);
}

/// Refuses no growth from here on. Returns whether one was refused.
pub fn has_refused(alloc: Global) -> bool {
    Vec::<u8>::with_capacity(alloc, NO_MORE).is_err()
}

/// A run of a call: its whole result as a text, or nothing if it was out of memory; the place where a report of out of memory is
/// counted; and whether a growth was refused. The place is 3 unless a test counts reports by the sets or the layers that they name.
#[derive(Drop)]
pub struct Run {
    answer: Option<String>,
    place: usize,
    refused: bool,
}

impl Run {
    /// Returns the run with this outcome, as `Debug` prints it.
    ///
    /// # Errors
    ///
    /// `AllocError` if an allocation failed.
    pub fn with<T: Debug>(alloc: Global, refused: bool, outcome: &T) -> Result<Run, AllocError> {
        let answer = Some(format!(in alloc; "{outcome:?}")?);
        Ok(Run {
            answer,
            place: 3,
            refused,
        })
    }

    /// Returns the run that was out of memory.
    pub fn out_of_memory(refused: bool) -> Run {
        Run {
            answer: None,
            place: 3,
            refused,
        }
    }

    /// Checks whether the run was out of memory.
    pub fn is_out_of_memory(&self) -> bool {
        self.answer.is_none()
    }

    /// Returns the same run, counted at this place.
    pub fn counted_at(mut self, place: usize) -> Run {
        self.place = place;
        self
    }
}

/// A call, run on a set.
///
/// It makes its input before growths are refused, and turns the result into text after refusals end. Where one call alone has no
/// visible result, it makes two.
pub trait Call<R> {
    /// Runs the call, before which a request of this size refuses growths.
    fn run(&self, rt: &R, set: &Set<'_>, asked: usize) -> Run;
}

/// What is wrong with the runs of a call on a set.
#[derive(Debug, Drop)]
pub enum Wrong {
    /// The result if this growth is refused, or if none is for 0. It isn't the one with ample memory, or it is out of memory although
    /// no growth was refused.
    Answer(usize, Option<String>),
    /// A report of out of memory if this growth is refused. It is at a place before the report for an earlier growth.
    Order(usize),
    /// The call has other growths if all later ones are refused too. These are both counts.
    Counts(usize, usize),
    /// No run meets no refusal.
    Endless,
}

/// The result of a call on a set with ample memory.
fn ample_answer<R, C: Call<R>>(rt: &R, set: &Set<'_>, call: &C) -> Result<String, Wrong> {
    match call.run(rt, set, NONE).answer {
        Some(answer) => Ok(answer),
        None => Err(Wrong::Answer(0, None)),
    }
}

/// The growths of a call on a set: how many there are, and for how many of them out of memory was reported, by the places of runs.
/// A growth that the call can do without is reported for none.
#[derive(Clone, Copy)]
pub struct Growths {
    pub count: usize,
    pub reported: [usize; 4],
}

/// Counts a run at its place. Returns whether no run was reported at a later place: the growths for set 1 come before those for set 2,
/// and the growths for neither come last.
fn count_run(reported: &mut [usize; 4], place: usize, is_reported: bool) -> bool {
    let behind: usize = reported
        .iter()
        .skip(place.saturating_add(1))
        .copied()
        .max()
        .unwrap_or(0);
    if let Some(count) = reported.get_mut(place) {
        *count = count.saturating_add(usize::from(is_reported));
    }
    behind == 0
}

/// A run has the same result as with ample memory, or reports out of memory after a growth was refused.
fn is_right(run: &Run, ample: &str) -> bool {
    match &run.answer {
        Some(answer) => answer.as_str() == ample,
        None => run.refused,
    }
}

/// Judges the run when this growth is refused, and counts it. Returns whether a growth was refused at all.
fn judge_run(
    run: Run,
    growth: usize,
    ample: &str,
    reported: &mut [usize; 4],
) -> Result<bool, Wrong> {
    if !is_right(&run, ample) {
        return Err(Wrong::Answer(growth, run.answer));
    }
    let in_order = !run.refused || count_run(reported, run.place, run.answer.is_none());
    if in_order {
        Ok(run.refused)
    } else {
        Err(Wrong::Order(growth))
    }
}

/// Refuses each growth of a call on a set in turn, until a run meets no refusal.
fn count_growths<R, C: Call<R>>(
    rt: &R,
    set: &Set<'_>,
    ample: &str,
    first: usize,
    call: &C,
) -> Result<Growths, Wrong> {
    let mut reported = [0; 4];
    for growth in 1..MANY {
        let run = call.run(rt, set, first.saturating_add(growth));
        if !judge_run(run, growth, ample, &mut reported)? {
            let count = growth - 1;
            return Ok(Growths { count, reported });
        }
    }
    Err(Wrong::Endless)
}

/// Refuses each growth of a call on a set, alone and then with all later ones.
///
/// # Errors
///
/// What is wrong with a run.
pub fn growths_on<R, C: Call<R>>(rt: &R, set: &Set<'_>, call: &C) -> Result<Growths, Wrong> {
    let ample = ample_answer(rt, set, call)?;
    let found = count_growths(rt, set, &ample, ALONE, call)?;
    let again = count_growths(rt, set, &ample, WITH_LATER_ONES, call)?;
    if found.count == again.count {
        Ok(found)
    } else {
        Err(Wrong::Counts(found.count, again.count))
    }
}

/// The input of a sweep: sets, the mask for calls that take one, and its name in the printed lines.
#[derive(Clone, Copy)]
pub struct Swept<'a> {
    pub what: &'a str,
    pub sets: &'a [SetLines],
    pub mask: Mask,
}

/// Returns these sets, under a mask that leaves out everything that masks can leave out.
pub fn on_sets<'a>(what: &'a str, sets: &'a [SetLines]) -> Swept<'a> {
    Swept {
        what,
        sets,
        mask: BOTH,
    }
}

/// Refuses each growth of a call on each set. Returns how many there are.
///
/// # Errors
///
/// The first set with a wrong run, and its fault.
pub fn count_on_sets<R, C: Call<R>>(
    rt: &R,
    of: Swept<'_>,
    call: &C,
) -> Result<usize, (&'static str, Wrong)> {
    let mut count = 0usize;
    for lines in of.sets {
        match growths_on(rt, &lines.under(of.mask), call) {
            Ok(found) => count = count.saturating_add(found.count),
            Err(wrong) => return Err((lines.row, wrong)),
        }
    }
    Ok(count)
}

/// Checks that two calls have the same result on a set with ample memory.
///
/// # Errors
///
/// The other result, or out of memory.
pub fn answer_alike<R, C: Call<R>, D: Call<R>>(
    rt: &R,
    set: &Set<'_>,
    one: &C,
    other: &D,
) -> Result<(), Wrong> {
    let wanted = ample_answer(rt, set, one)?;
    let found = ample_answer(rt, set, other)?;
    if found.as_str() == wanted.as_str() {
        Ok(())
    } else {
        Err(Wrong::Answer(0, Some(found)))
    }
}
