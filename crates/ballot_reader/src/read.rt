// Reads a ballot file.
ghost use Rattle.std.specs.Prelude.{◌≡◌, ◌<◌, ◌≤◌, ◌+◌, ◌∷◌, [], All, List, Option, Ok, Some, IfOk, IfErr, IfSome, IfNone, IsTrue, None, OnOk, false, length, map, drop, not, position, slice_get, option_copied};
ghost use Rattle.csv_rows.specs.Rows.{Fields as FieldList};
ghost use Rattle.irv_base.specs.Names.{Id, all_differ};
ghost use Rattle.ballots.specs.declared.limits.TheConstants.{MOST_CONTESTS};
ghost use Rattle.ballot_reader.specs.declared.wanted.Wanted.{Wanted as WantedContests};
ghost use Rattle.ballot_reader.specs.declared.wanted.Wanted.TheVariants.{One, VotesOf, All as EachContest};
ghost use Rattle.ballots.specs.Ballots.{AreBallots, BallotFile, votes_of, votes_with};
ghost use Rattle.ballots.specs.Casts.{counted_of, rankings_of};
ghost use Rattle.ballots.specs.Grammar.{Ballot, Contest as ContestRecord, all_audited, asked_for, audited_contest, ballots_after, ballots_behind, ballots_from, ballots_of, contest_count, contests_behind, contests_from, contests_in, contests_of, file_of, has_audited_size};
ghost use Rattle.file_fault.specs.Refusals.{Refuses};
ghost use Rattle.ballot_reader.specs.Parts.{ComeBehind, IsRefusedBehind};
ghost use Rattle.ballot_reader.specs.Kept.{IsKept, IsKeptUpTo, WantsAudited, contest_ids, file_with, is_wanted, keeps_origins, part_of};

use crate::contest::{Contest, contest_of};
use crate::count::contest_count;
use crate::kept::{Kept, contest_place};
use crate::part::{Origins, Part};
use crate::wanted::Wanted;
use ballots::{BRule, BallotFault, Ballots, Cast, Votes};
use csv_rows::{Records, without_mark};
use irv_base::{FEWEST_CANDIDATES, MOST_CANDIDATES, MOST_RECORDS, Memory, Name};
use std::alloc::Global;

// The record of the first contest, counted from 1. The number of contests comes before it.
const FIRST_CONTEST: u32 = 2;

// The number of bytes in a ballot's record, roughly. Room is made for the number of ballots that this gives at first, and for more as
// needed.
const RECORD_BYTES: usize = 40;

/// Reads the contests in the next n records.
pub fn contests_left(
    alloc: Global,
    n: u32,
    records: &mut Records<'_>,
) -> Result<Vec<Contest>, BallotFault>
    requires { n ≤ MOST_CONTESTS }
    ensures read { IfOk result (λ contests.
        contests_in n [] 2 records.old.left ≡ Ok contests.items) }
    ensures rest { IfOk result (λ _. records.new.left ≡ drop n records.old.left) }
    ensures all { IfOk result (λ contests. length contests.items ≡ n) }
    ensures differ { IfOk result (λ contests. IsTrue (all_differ (contest_ids contests.items))) }
    ensures refused { IfErr result (Refuses (contests_in n [] 2 records.old.left)) }
{
    let mut contests = Vec::new(alloc);
    for i in 0..n {
        let at = FIRST_CONTEST + i;
        if !records.read()? {
            return Err(BallotFault::at_record(BRule::B2, at));
        }
        match contest_of(alloc, &contests, at, records.fields())? {
            Ok(contest) => contests.push(contest)?,
            Err(rule) => return Err(BallotFault::at_record(rule, at)),
        }
    }
    Ok(contests)
}

// The place, from 0, of the contest that is asked for, or of the only one.
fn asked_place(contests: &[Contest], asked: Option<&Name>) -> Option<usize>
    ensures within { IfSome result (λ k. k < length contests.now) }
    ensures asked { IfSome result (λ k.
        asked_for contests.now (option_copied asked.entry) ≡ slice_get contests.now k) }
    ensures none { IfNone result (asked_for contests.now (option_copied asked.entry) ≡ None) }
{
    match asked {
        Some(id) => contest_place(contests, id.bytes()),
        None => {
            if contests.len() == 1 {
                return Some(0);
            }
            None
        }
    }
}

fn has_audited_size(contest: &Contest) -> bool
    ensures { result ≡ has_audited_size contest.now.candidates }
{
    let size = contest.candidates.len();
    (FEWEST_CANDIDATES as usize..=MOST_CANDIDATES as usize).contains(&size)
}

/// The place of the contest that is audited.
pub fn audited_place(contests: &[Contest], asked: Option<&Name>) -> Result<usize, BallotFault>
    ensures within { IfOk result (λ k. k < length contests.now) }
    ensures audited { IfOk result (λ k. (chosen : ContestRecord)
        × (slice_get contests.now k ≡ Some chosen)
        × (audited_contest (asked_for contests.now (option_copied asked.entry)) ≡ Ok chosen)) }
    ensures refused { IfErr result
        (Refuses (audited_contest (asked_for contests.now (option_copied asked.entry)))) }
{
    let Some(place) = asked_place(contests, asked) else {
        return Err(BallotFault::at_record(BRule::B5, 1));
    };
    let contest = &contests[place];
    if !has_audited_size(contest) {
        return Err(BallotFault::at_record(BRule::B3, contest.at));
    }
    Ok(place)
}

// The place of the first contest that has too few or too many candidates to be audited.
fn unsized_place(contests: &[Contest]) -> Option<usize>
    ensures place { result
        ≡ position (λ contest. not (has_audited_size contest.candidates)) contests.now }
    ensures within { IfSome result (λ k. k < length contests.now) }
{
    contests
        .iter()
        .position(|contest| !has_audited_size(contest))
}

// Checks that all contests are of a size that can be audited.
fn see_all_audited(contests: &[Contest]) -> Result<(), BallotFault>
    ensures audited { OnOk result (all_audited contests.now ≡ Ok contests.now) }
    ensures refused { IfErr result (Refuses (all_audited contests.now)) }
{
    let Some(place) = unsized_place(contests) else {
        return Ok(());
    };
    let contest = &contests[place];
    Err(BallotFault::at_record(BRule::B3, contest.at))
}

/// Keeps the ballots in the remaining records, the first of which has this number, and returns the number that comes next.
pub fn add_ballots(
    contests: &[Contest],
    kept: &mut Kept,
    first: u32,
    records: &mut Records<'_>,
) -> Result<u32, BallotFault>
    requires few { length contests.now ≤ MOST_CONTESTS }
    requires differ { IsTrue (all_differ (contest_ids contests.now)) }
    requires kept { (wanted : WantedContests) × (earlier : List Ballot)
        × IsKeptUpTo contests.now wanted earlier first kept.old }
    ensures read { IfOk result (λ next. (wanted : WantedContests)
        → ComeBehind contests.now wanted first records.old.left kept.old next kept.new) }
    ensures refused { IfErr result (λ fault. (wanted : WantedContests)
        → IsRefusedBehind contests.now wanted first records.old.left kept.old fault) }
{
    let mut at = first;
    'records: while records.read()? {
        kept.add(contests, at, records.fields())?;
        at += 1;
    }
    Ok(at)
}

/// The number of the record of the first ballot.
pub fn first_ballot(contests: &[Contest]) -> u32
    requires { length contests.now ≤ MOST_CONTESTS }
    ensures { result ≡ 2 + length contests.now }
{
    FIRST_CONTEST + contests.len() as u32
}

/// The data kept for the ballots in the remaining records.
pub fn ballots_left(
    alloc: Global,
    contests: &[Contest],
    wanted: Wanted,
    room: usize,
    records: &mut Records<'_>,
) -> Result<Kept, BallotFault>
    requires few { length contests.now ≤ MOST_CONTESTS }
    requires differ { IsTrue (all_differ (contest_ids contests.now)) }
    requires sized { WantsAudited contests.now wanted }
    ensures read { IfOk result (λ kept. (ballots : List Ballot)
        × (ballots_after contests.now [] (2 + length contests.now) records.old.left ≡ Ok ballots)
        × IsKept contests.now wanted ballots kept) }
    ensures refused { IfErr result
        (Refuses (ballots_after contests.now [] (2 + length contests.now) records.old.left)) }
{
    let mut kept = Kept::nothing(alloc, contests, wanted, room)?;
    add_ballots(contests, &mut kept, first_ballot(contests), records)?;
    Ok(kept)
}

// The list of a contest's candidates, without the order in which they are looked up.
fn candidates_of(alloc: Global, contest: &Contest) -> Result<Vec<Name>, Memory>
    ensures { IfOk result (λ candidates. candidates.items ≡ contest.now.candidates) }
{
    let mut candidates = Vec::new(alloc);
    candidates.extend_from_slice(contest.candidates.as_slice())?;
    Ok(candidates)
}

// A contest with the rankings of its ballots.
fn votes_of(alloc: Global, contest: Contest, cast: Cast) -> Result<Votes, Memory>
    requires sized { IsTrue (has_audited_size contest.candidates) }
    requires own { IfSome (counted_of cast) (λ n. n ≡ length contest.candidates) }
    requires most { length (rankings_of cast) ≤ MOST_RECORDS }
    requires below { All (λ ranking. All (λ c. c < length contest.candidates) ranking)
        (rankings_of cast) }
    ensures { IfOk result (λ votes.
        votes ≡ votes_with contest.id contest.candidates (rankings_of cast)) }
{
    let candidates = candidates_of(alloc, &contest)?;
    Ok(Votes::of(contest.id, candidates, cast))
}

// A contest with its ballots, whose origins are kept.
fn ballots_with(alloc: Global, contest: Contest, part: Part) -> Result<Ballots, Memory>
    requires sized { IsTrue (has_audited_size contest.candidates) }
    requires listed { part.counted ≡ None }
    requires kept { (file : BallotFile) × (file_with contest part ≡ Some file)
        × AreBallots (length file.candidates) file.ids file.places file.rankings }
    ensures { IfOk result (λ ballots. file_with contest part ≡ Some ballots) }
{
    let Part { origins, cast, .. } = part;
    let Some(Origins { ids, places }) = origins else {
        unreachable!();
    };
    let candidates = candidates_of(alloc, &contest)?;
    let rankings = cast.into_rankings();
    Ok(Ballots::new(contest.id, candidates, rankings, ids, places))
}

// The contest at a place, with the data kept for its ballots.
fn taken(mut contests: Vec<Contest>, place: usize, mut kept: Kept) -> (Contest, Part)
    requires within { place < length contests.items }
    requires kept { (wanted : WantedContests) × IsTrue (is_wanted wanted place)
        × ((ballots : List Ballot) × IsKept contests.items wanted ballots kept) }
    ensures there { slice_get contests.items place ≡ Some result.0 }
    ensures own { (wanted : WantedContests) → (ballots : List Ballot)
        → IsKept contests.items wanted ballots kept → IsTrue (is_wanted wanted place)
        → result.1 ≡ part_of (keeps_origins wanted) ballots result.0 }
{
    let contest = contests.swap_remove(place);
    let Some(part) = kept.parts.swap_remove(place) else {
        unreachable!();
    };
    (contest, part)
}

// The contest at a place, with the ballots that are kept.
fn file_of(
    alloc: Global,
    contests: Vec<Contest>,
    audited: usize,
    kept: Kept,
) -> Result<Ballots, Memory>
    requires within { audited < length contests.items }
    requires sized { WantsAudited contests.items (One audited) }
    requires kept { (ballots : List Ballot) × IsKept contests.items (One audited) ballots kept }
    ensures { IfOk result (λ file. (chosen : ContestRecord) → (ballots : List Ballot)
        → slice_get contests.items audited ≡ Some chosen
        → IsKept contests.items (One audited) ballots kept
        → file ≡ file_of chosen ballots) }
{
    let (contest, part) = taken(contests, audited, kept);
    ballots_with(alloc, contest, part)
}

/// The contest at a place, with the rankings of the ballots that are kept.
pub fn votes_kept(
    alloc: Global,
    contests: Vec<Contest>,
    audited: usize,
    kept: Kept,
) -> Result<Votes, Memory>
    requires within { audited < length contests.items }
    requires sized { WantsAudited contests.items (VotesOf audited) }
    requires kept { (ballots : List Ballot)
        × IsKept contests.items (VotesOf audited) ballots kept }
    ensures { IfOk result (λ votes. (chosen : ContestRecord) → (ballots : List Ballot)
        → slice_get contests.items audited ≡ Some chosen
        → IsKept contests.items (VotesOf audited) ballots kept
        → votes ≡ votes_of (file_of chosen ballots)) }
{
    let (contest, part) = taken(contests, audited, kept);
    votes_of(alloc, contest, part.cast)
}

// Each contest, with the ballots that are kept, in the order of the file.
fn files_of(alloc: Global, contests: Vec<Contest>, kept: Kept) -> Result<Vec<Ballots>, Memory>
    requires sized { WantsAudited contests.items EachContest }
    requires kept { (ballots : List Ballot) × IsKept contests.items EachContest ballots kept }
    ensures { IfOk result (λ files. (ballots : List Ballot)
        → IsKept contests.items EachContest ballots kept
        → files.items ≡ map (λ contest. file_of contest ballots) contests.items) }
{
    let mut files = Vec::with_capacity(alloc, contests.len())?;
    let mut parts = kept.parts.into_iter();
    for contest in contests {
        let Some(Some(part)) = parts.next() else {
            unreachable!();
        };
        files.push(ballots_with(alloc, contest, part)?)?;
    }
    Ok(files)
}

// Reads the ballots in the remaining records, the next n of which are contests.
fn ballots_behind(
    alloc: Global,
    n: u32,
    asked: Option<&Name>,
    room: usize,
    records: &mut Records<'_>,
) -> Result<Ballots, BallotFault>
    requires { n ≤ MOST_CONTESTS }
    ensures read { IfOk result (λ ballots.
        ballots_behind (Some n) (option_copied asked.entry) records.old.left ≡ Ok ballots) }
    ensures refused { IfErr result
        (Refuses (ballots_behind (Some n) (option_copied asked.entry) records.old.left)) }
{
    let contests = contests_left(alloc, n, records)?;
    let audited = audited_place(&contests, asked)?;
    let kept = ballots_left(alloc, &contests, Wanted::One(audited), room, records)?;
    Ok(file_of(alloc, contests, audited, kept)?)
}

// The same as `ballots_behind`, for all contests.
fn contests_behind(
    alloc: Global,
    n: u32,
    room: usize,
    records: &mut Records<'_>,
) -> Result<Vec<Ballots>, BallotFault>
    requires { n ≤ MOST_CONTESTS }
    ensures read { IfOk result (λ files.
        contests_behind (Some n) records.old.left ≡ Ok files.items) }
    ensures refused { IfErr result (Refuses (contests_behind (Some n) records.old.left)) }
{
    let contests = contests_left(alloc, n, records)?;
    see_all_audited(&contests)?;
    let kept = ballots_left(alloc, &contests, Wanted::All, room, records)?;
    Ok(files_of(alloc, contests, kept)?)
}

/// The number of contests in the first record.
pub fn first_count(records: &mut Records<'_>) -> Result<u32, BallotFault>
    ensures few { IfOk result (λ n. n ≤ MOST_CONTESTS) }
    ensures read { IfOk result (λ n. (first : FieldList)
        × (records.old.left ≡ first ∷ records.new.left) × (contest_count first ≡ Some n)) }
    ensures refused { IfErr result (λ fault. (asked : Option Id)
        → Refuses (ballots_from asked records.old.left) fault) }
    ensures refused_all { IfErr result (Refuses (contests_from records.old.left)) }
{
    if records.read()? {
        if let Some(n) = contest_count(records.fields()) {
            return Ok(n);
        }
    }
    Err(BallotFault::at_record(BRule::B1, 1))
}

// The number of ballots for which room is made at first.
fn room_for(bytes: &[u8]) -> usize {
    (bytes.len() / RECORD_BYTES).min(MOST_RECORDS as usize)
}

/// Reads a ballot file: the contest that is asked for, or the only one if none is asked for.
///
/// The first record's first field is the number of contests, 1 to `MOST_CONTESTS`. That many contest records follow. Each has the field
/// `Contest`, the contest's id, the number of its candidates, 1 to `MOST_LISTED`, their ids, and further fields, which are ignored. Every
/// other record is a ballot: the id of its contest, its own id, and the ids of candidates, the most preferred first. Blank preferences are
/// skipped, and a repeated candidate counts at its first place.
///
/// Spaces and tabs around a field are removed. If the only field of a record is then empty, the record is skipped and has no number. A byte
/// order mark at the front is removed.
///
/// The file is refused by the first rule that a record breaks. B1 at 1: the number of contests isn't such a number. In a contest's record
/// B2: it is missing, has fewer than three fields, doesn't begin with `Contest`, or repeats a contest's id; B3: the number of candidates
/// isn't such a number, or fewer ids follow; B4: an id isn't one, or a candidate is repeated. After the contests B5 at 1: the contest asked
/// for isn't there, or none was asked for and there are several; B3 at its record: it doesn't have `FEWEST_CANDIDATES` to `MOST_CANDIDATES`
/// candidates. In a ballot's record B10: it is one more than `MOST_RECORDS`; B6: it has fewer than two fields; B4: its id isn't one; B7:
/// its contest isn't there; B9: an earlier ballot of this contest has its id; B8: a preference isn't a candidate of its contest. Ballots of
/// other contests are judged in the same way, but not kept.
pub fn read_ballots(
    alloc: Global,
    bytes: &[u8],
    contest: Option<&Name>,
) -> Result<Ballots, BallotFault>
    ensures read { IfOk result (λ ballots.
        ballots_of bytes.now (option_copied contest.entry) ≡ Ok ballots) }
    ensures refused { IfErr result (Refuses (ballots_of bytes.now (option_copied contest.entry))) }
{
    let mut records = Records::of(alloc, without_mark(bytes));
    let n = first_count(&mut records)?;
    ballots_behind(alloc, n, contest, room_for(bytes), &mut records)
}

/// Reads all contests of a ballot file, in the order of the file, each as `read_ballots` reads it by its id.
///
/// The file is refused exactly if `read_ballots` refuses one of them, and with the refusal that comes first. The rules are those given
/// there, except that B3, judged for all contests in order, takes the place of B5.
pub fn read_contests(alloc: Global, bytes: &[u8]) -> Result<Vec<Ballots>, BallotFault>
    ensures read { IfOk result (λ files. contests_of bytes.now ≡ Ok files.items) }
    ensures refused { IfErr result (Refuses (contests_of bytes.now)) }
{
    let mut records = Records::of(alloc, without_mark(bytes));
    let n = first_count(&mut records)?;
    contests_behind(alloc, n, room_for(bytes), &mut records)
}
