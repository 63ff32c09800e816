// The search, directly by the definitions. It goes through every assertion, every suffix and every order of a contest in full. It shares
// candidates, sets and rankings with the program that it is compared with, and no other code.

use irv_base::{CandSet, Candidate, Ranking};
use std::alloc::{AllocError, Global};

/// A contest whose candidates have consecutive numbers as ids.
#[derive(Drop)]
pub struct Contest {
    /// The id of the contest.
    pub id: u32,
    /// The id of the first candidate.
    pub first_id: u32,
    /// The candidates, in increasing order.
    pub candidates: Vec<Candidate>,
    /// A ranking for each record.
    pub rankings: Vec<Ranking>,
}

/// What a search prints.
#[derive(Drop)]
pub enum Plain {
    Tie(String),
    Certificate(String),
}

// An assertion with its margin. It says that the winner can't be eliminated before the loser or, with a set, that the winner isn't eliminated
// next if exactly the candidates in this set are left.
#[derive(Clone, Copy)]
struct Claim {
    winner: Candidate,
    loser: Candidate,
    rest: Option<CandSet>,
    margin: usize,
}

// The largest margin of the claims that refute a suffix, and the place of the first claim that has it. The margin is 0 if no claim refutes
// the suffix.
#[derive(Clone, Copy)]
struct Low {
    margin: usize,
    place: usize,
}

// A suffix, read backwards, with its low and the margin of its parent's low.
#[derive(Clone, Copy)]
struct Suffix {
    backwards: Ranking,
    low: Low,
    parent: Option<usize>,
}

impl Contest {
    /// The id of a candidate.
    pub fn id_of(&self, c: Candidate) -> u32 {
        self.first_id.saturating_add(u32::from(c.0))
    }

    fn all(&self) -> CandSet {
        let mut set = CandSet::empty();
        for c in &self.candidates {
            set = set.with(*c);
        }
        set
    }

    // The votes of a candidate if exactly these candidates are left.
    fn tally(&self, standing: CandSet, c: Candidate) -> usize {
        self.rankings
            .iter()
            .filter(|ranking| ranking.first_in(standing) == Some(c))
            .count()
    }

    // The number of ballots that rank `one` before `other`, or rank only `one` of the two.
    fn prefer(&self, one: Candidate, other: Candidate) -> usize {
        self.rankings
            .iter()
            .filter(|ranking| stands_before(ranking, one, other))
            .count()
    }
}

fn stands_before(list: &Ranking, one: Candidate, other: Candidate) -> bool {
    match (list.place(one), list.place(other)) {
        (Some(at), Some(behind)) => at < behind,
        (Some(_), None) => true,
        _ => false,
    }
}

/// What a search of the contest prints: the certificate if every way of breaking its ties elects the same candidate, and the first tie
/// otherwise.
pub fn search(alloc: Global, contest: &Contest) -> Result<Plain, AllocError> {
    match winners(alloc, contest)?.as_slice() {
        [only] => Ok(Plain::Certificate(certificate(alloc, contest, *only)?)),
        _ => first_tie(alloc, contest),
    }
}

// The candidates who may be last, over all ways of breaking ties. Each one is given as a set of one.
fn winners(alloc: Global, contest: &Contest) -> Result<Vec<CandSet>, AllocError> {
    let mut all = Vec::new(alloc);
    all.push(contest.all())?;
    for _ in 1..contest.candidates.len() {
        all = after_a_round(alloc, contest, &all)?;
    }
    Ok(all)
}

// The sets that may be left after a round if one of these sets was left before it. Each set is given once.
fn after_a_round(
    alloc: Global,
    contest: &Contest,
    all: &[CandSet],
) -> Result<Vec<CandSet>, AllocError> {
    let mut left = Vec::new(alloc);
    for standing in all {
        let least = least_tally(contest, *standing);
        let tied = of_tally(alloc, contest, *standing, least)?;
        for c in &tied {
            let others = standing.without(*c);
            if !left.contains(&others) {
                left.push(others)?;
            }
        }
    }
    Ok(left)
}

// The first tie if, among tied candidates, the one with the smallest number leaves. Some round of a contest that isn't decided has a tie.
fn first_tie(alloc: Global, contest: &Contest) -> Result<Plain, AllocError> {
    let mut standing = contest.all();
    for round in 1..contest.candidates.len() {
        let least = least_tally(contest, standing);
        let tied = of_tally(alloc, contest, standing, least)?;
        match tied.as_slice() {
            [only] => standing = standing.without(*only),
            _ => return tie(alloc, contest, round, &tied, least),
        }
    }
    Ok(Plain::Tie(String::new(alloc)))
}

fn least_tally(contest: &Contest, standing: CandSet) -> usize {
    let mut least = usize::MAX;
    for c in &contest.candidates {
        if standing.has(*c) {
            least = least.min(contest.tally(standing, *c));
        }
    }
    least
}

// The candidates who are left and have this many votes.
fn of_tally(
    alloc: Global,
    contest: &Contest,
    standing: CandSet,
    votes: usize,
) -> Result<Vec<Candidate>, AllocError> {
    let mut found = Vec::new(alloc);
    for c in &contest.candidates {
        if standing.has(*c) && contest.tally(standing, *c) == votes {
            found.push(*c)?;
        }
    }
    Ok(found)
}

fn tie(
    alloc: Global,
    contest: &Contest,
    round: usize,
    tied: &[Candidate],
    least: usize,
) -> Result<Plain, AllocError> {
    let mut text = format!(in alloc; "tie\nround {round}\ntied ")?;
    add_ids(&mut text, contest, tied)?;
    write!(text, "\ntally {least}\n")?;
    Ok(Plain::Tie(text))
}

// Adds the ids of candidates, separated by commas.
fn add_ids(text: &mut String, contest: &Contest, list: &[Candidate]) -> Result<(), AllocError> {
    let mut comma = "";
    for c in list {
        let id = contest.id_of(*c);
        write!(text, "{comma}{id}")?;
        comma = ",";
    }
    Ok(())
}

// All sets of the contest's candidates, in the order of their numbers.
fn sets(alloc: Global, contest: &Contest) -> Result<Vec<CandSet>, AllocError> {
    let mut sets = Vec::new(alloc);
    sets.push(CandSet::empty())?;
    for c in &contest.candidates {
        let without = sets.clone()?;
        for set in &without {
            sets.push(set.with(*c))?;
        }
    }
    Ok(sets)
}

// The claims with a positive margin, in their fixed order: claims without a set first, then by winner, by loser and by the number of the
// set.
fn claims(alloc: Global, contest: &Contest) -> Result<Vec<Claim>, AllocError> {
    let mut claims = Vec::new(alloc);
    for winner in &contest.candidates {
        for loser in &contest.candidates {
            add_claim(&mut claims, contest, *winner, *loser, None)?;
        }
    }
    let sets = sets(alloc, contest)?;
    for winner in &contest.candidates {
        for loser in &contest.candidates {
            for set in &sets {
                if set.has(*winner) && set.has(*loser) {
                    add_claim(&mut claims, contest, *winner, *loser, Some(*set))?;
                }
            }
        }
    }
    Ok(claims)
}

// Adds the claim if its margin is positive. The margin of a candidate over itself isn't.
fn add_claim(
    claims: &mut Vec<Claim>,
    contest: &Contest,
    winner: Candidate,
    loser: Candidate,
    rest: Option<CandSet>,
) -> Result<(), AllocError> {
    let (votes, against) = match rest {
        None => (
            contest.tally(contest.all(), winner),
            contest.prefer(loser, winner),
        ),
        Some(set) => (contest.tally(set, winner), contest.tally(set, loser)),
    };
    let margin = votes.saturating_sub(against);
    if margin > 0 && winner != loser {
        claims.push(Claim {
            winner,
            loser,
            rest,
            margin,
        })?;
    }
    Ok(())
}

// The candidates from this one to the end of the suffix.
fn from_here(backwards: &Ranking, c: Candidate) -> Option<CandSet> {
    let mut set = CandSet::empty();
    for other in backwards.candidates() {
        set = set.with(*other);
        if *other == c {
            return Some(set);
        }
    }
    None
}

// Whether no order that ends this way is possible if the claim holds.
fn refutes(claim: &Claim, backwards: &Ranking) -> bool {
    match claim.rest {
        None => stands_before(backwards, claim.loser, claim.winner),
        Some(set) => from_here(backwards, claim.winner) == Some(set),
    }
}

fn low_of(claims: &[Claim], backwards: &Ranking) -> Low {
    let mut low = Low {
        margin: 0,
        place: 0,
    };
    for (place, claim) in claims.iter().enumerate() {
        if claim.margin > low.margin && refutes(claim, backwards) {
            low = Low {
                margin: claim.margin,
                place,
            };
        }
    }
    low
}

// Adds the suffix with one more candidate in front, which is the end when it is read backwards.
fn add_suffix(
    suffixes: &mut Vec<Suffix>,
    claims: &[Claim],
    shorter: &Ranking,
    c: Candidate,
    parent: Option<usize>,
) -> Result<(), AllocError> {
    let mut backwards = *shorter;
    backwards.push(c);
    let low = low_of(claims, &backwards);
    suffixes.push(Suffix {
        backwards,
        low,
        parent,
    })?;
    Ok(())
}

// All suffixes that end in a candidate who isn't left, ordered by length and then by the suffix read backwards.
fn suffixes(
    alloc: Global,
    contest: &Contest,
    claims: &[Claim],
    standing: CandSet,
) -> Result<Vec<Suffix>, AllocError> {
    let mut all = Vec::new(alloc);
    for c in &contest.candidates {
        if !standing.has(*c) {
            add_suffix(&mut all, claims, &Ranking::empty(), *c, None)?;
        }
    }
    let mut longest = all.clone()?;
    for _ in &contest.candidates {
        longest = longer(alloc, contest, claims, &longest)?;
        all.extend_from_slice(&longest)?;
    }
    Ok(all)
}

// The suffixes with one more candidate than these.
fn longer(
    alloc: Global,
    contest: &Contest,
    claims: &[Claim],
    suffixes: &[Suffix],
) -> Result<Vec<Suffix>, AllocError> {
    let mut found = Vec::new(alloc);
    for suffix in suffixes {
        let parent = Some(suffix.low.margin);
        for c in &contest.candidates {
            if !suffix.backwards.contains(*c) {
                add_suffix(&mut found, claims, &suffix.backwards, *c, parent)?;
            }
        }
    }
    Ok(found)
}

fn is_order(contest: &Contest, suffix: &Suffix) -> bool {
    suffix.backwards.candidates().len() == contest.candidates.len()
}

fn least_hardness(contest: &Contest, suffixes: &[Suffix]) -> usize {
    let mut least = usize::MAX;
    for suffix in suffixes {
        if is_order(contest, suffix) {
            least = least.min(suffix.low.margin);
        }
    }
    least
}

// The first of the orders with this hardness.
fn easiest<'a>(contest: &Contest, suffixes: &'a [Suffix], hardness: usize) -> Option<&'a Suffix> {
    for suffix in suffixes {
        if is_order(contest, suffix) && suffix.low.margin == hardness {
            return Some(suffix);
        }
    }
    None
}

// Whether the margin refutes this suffix but doesn't refute its parent.
fn is_end(suffix: &Suffix, best: usize) -> bool {
    suffix.low.margin >= best && suffix.parent.is_none_or(|parent| parent < best)
}

// The certificate that an order with this end is the outcome, as the line of an assertion file.
fn certificate(alloc: Global, contest: &Contest, standing: CandSet) -> Result<String, AllocError> {
    let claims = claims(alloc, contest)?;
    let suffixes = suffixes(alloc, contest, &claims, standing)?;
    let mut text = String::new(alloc);
    let best = least_hardness(contest, &suffixes);
    if let Some(order) = easiest(contest, &suffixes, best) {
        text.push_str("{\"assertions\":[")?;
        add_needed(&mut text, contest, &claims, &suffixes, best)?;
        add_outcome(&mut text, contest, order, standing)?;
    }
    Ok(text)
}

// Adds the claims that come first for some end, each once.
fn add_needed(
    text: &mut String,
    contest: &Contest,
    claims: &[Claim],
    suffixes: &[Suffix],
    best: usize,
) -> Result<(), AllocError> {
    let mut comma = "";
    for (place, claim) in claims.iter().enumerate() {
        let is_needed = suffixes
            .iter()
            .any(|suffix| suffix.low.place == place && is_end(suffix, best));
        if is_needed {
            text.push_str(comma)?;
            add_text(text, contest, claim)?;
            comma = ",";
        }
    }
    Ok(())
}

fn add_text(text: &mut String, contest: &Contest, claim: &Claim) -> Result<(), AllocError> {
    let kind = if claim.rest.is_none() { "NEB" } else { "NEN" };
    let loser = contest.id_of(claim.loser);
    let margin = claim.margin;
    write!(
        text,
        "{{\"kind\":\"{kind}\",\"loser\":\"{loser}\",\"margin\":{margin}"
    )?;
    if let Some(set) = claim.rest {
        text.push_str(",\"rest\":[")?;
        add_members(text, contest, set)?;
        text.push_str("]")?;
    }
    let winner = contest.id_of(claim.winner);
    write!(text, ",\"winner\":\"{winner}\"}}")
}

// Adds an id in quotes, with a comma in front unless it is the first.
fn add_quoted(text: &mut String, is_first: bool, id: u32) -> Result<(), AllocError> {
    if is_first {
        return write!(text, "\"{id}\"");
    }
    write!(text, ",\"{id}\"")
}

fn add_members(text: &mut String, contest: &Contest, set: CandSet) -> Result<(), AllocError> {
    let mut is_first = true;
    for c in &contest.candidates {
        if set.has(*c) {
            add_quoted(text, is_first, contest.id_of(*c))?;
            is_first = false;
        }
    }
    Ok(())
}

// Adds the order, which is stored backwards.
fn add_order(text: &mut String, contest: &Contest, order: &Ranking) -> Result<(), AllocError> {
    let mut is_first = true;
    for c in order.candidates().iter().rev() {
        add_quoted(text, is_first, contest.id_of(*c))?;
        is_first = false;
    }
    Ok(())
}

// Adds everything that follows the assertions.
fn add_outcome(
    text: &mut String,
    contest: &Contest,
    order: &Suffix,
    standing: CandSet,
) -> Result<(), AllocError> {
    let id = contest.id;
    let margin = order.low.margin;
    let records = contest.rankings.len();
    text.push_str("],\"candidates\":[")?;
    add_members(text, contest, contest.all())?;
    write!(
        text,
        "],\"contest\":\"{id}\",\"margin\":{margin},\"order\":["
    )?;
    add_order(text, contest, &order.backwards)?;
    write!(text, "],\"records\":{records},\"version\":1,\"winner\":")?;
    add_members(text, contest, standing)?;
    text.push_str("}\n")
}
