// Contests that a fixed generator makes.

use crate::plain::Contest;
use irv_base::{Candidate, Ranking};
use std::alloc::{AllocError, Global};

// The maximum number of candidates of a contest.
const MOST: u8 = 8;

/// The number of different sizes of contests, in candidates, from 2.
pub const SIZES: u64 = 7;

/// The number of these sizes that are small enough for the plain program.
pub const SMALL_SIZES: u64 = 5;

// The id of the contest.
const CONTEST: u32 = 9;

// The id of the first candidate.
const FIRST: u32 = 11;

// The generator of Knuth's MMIX.
#[derive(Drop)]
struct Draws {
    state: u64,
}

impl Draws {
    // A number below `n`, or 0 if there is none.
    fn below(&mut self, n: u64) -> u64 {
        self.state = self
            .state
            .wrapping_mul(6364136223846793005)
            .wrapping_add(1442695040888963407);
        (self.state >> 33).checked_rem(n).unwrap_or(0)
    }
}

// The first `n` candidates.
fn candidates(alloc: Global, n: u64) -> Result<Vec<Candidate>, AllocError> {
    let mut list = Vec::new(alloc);
    for c in 0..MOST {
        if u64::from(c) < n {
            list.push(Candidate(c))?;
        }
    }
    Ok(list)
}

// A drawn ranking. Candidates with small numbers are ranked more often.
fn ranking(draws: &mut Draws, candidates: &[Candidate]) -> Ranking {
    let n = candidates.len() as u64;
    let mut ranking = Ranking::empty();
    for _ in 0..draws.below(n.saturating_add(1)) {
        let place = draws.below(n).min(draws.below(n));
        if let Some(c) = candidates.get(place as usize) {
            ranking.push(*c);
        }
    }
    ranking
}

/// The contest with this number. The numbers of candidates, of which there are `sizes`, are used in turn.
pub fn generated(alloc: Global, number: u64, sizes: u64) -> Result<Contest, AllocError> {
    drawn(alloc, number, sizes, 20, 100)
}

/// The contest with this number. It has few candidates, and so few ballots that most of these contests have a tie.
pub fn generated_with_ties(alloc: Global, number: u64) -> Result<Contest, AllocError> {
    drawn(alloc, number, SMALL_SIZES, 0, 12)
}

// A drawn contest. It has at least `fewest` ballots, and `more` numbers of ballots are possible.
fn drawn(
    alloc: Global,
    number: u64,
    sizes: u64,
    fewest: u64,
    more: u64,
) -> Result<Contest, AllocError> {
    let mut draws = Draws { state: number };
    let candidates = candidates(
        alloc,
        number.checked_rem(sizes).unwrap_or(0).saturating_add(2),
    )?;
    let mut rankings = Vec::new(alloc);
    for _ in 0..draws.below(more).saturating_add(fewest) {
        rankings.push(ranking(&mut draws, &candidates))?;
    }
    Ok(Contest {
        id: CONTEST,
        first_id: FIRST,
        candidates,
        rankings,
    })
}

/// The contest as the text of a ballot file.
pub fn ballot_file(alloc: Global, contest: &Contest) -> Result<String, AllocError> {
    let id = contest.id;
    let n = contest.candidates.len();
    let mut text = format!(in alloc; "1\nContest,{id},{n}")?;
    add_fields(&mut text, contest, &contest.candidates)?;
    let mut number = 0u32;
    for ranking in &contest.rankings {
        number = number.saturating_add(1);
        write!(text, "{id},b_{number}")?;
        add_fields(&mut text, contest, ranking.candidates())?;
    }
    Ok(text)
}

// Adds the ids as the last fields of a line.
fn add_fields(text: &mut String, contest: &Contest, list: &[Candidate]) -> Result<(), AllocError> {
    for c in list {
        let id = contest.id_of(*c);
        write!(text, ",{id}")?;
    }
    text.push_str("\n")
}
