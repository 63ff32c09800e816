// The top call.
ghost use Rattle.std.specs.Prelude.{◌≡◌, ◌<◌};
ghost use Rattle.std.specs.Io.KnownBytes.{Keeps};
ghost use Rattle.desk.specs.Count.{Rose};
ghost use Rattle.cli_base.specs.Accounts.{IsAccountedFor};
ghost use Rattle.cli_base.specs.Begun.{HasCome};
ghost use Rattle.cli_base.specs.Due.{due};
ghost use Rattle.cli_base.specs.Faults.{IsFaultTold};
ghost use Rattle.cli_base.specs.Ends.{writing};
ghost use Rattle.cli_base.specs.Script.{ByDesk};
ghost use Rattle.cli_base.specs.Statuses.{IsAnswered, IsForErr, IsUndone};
ghost use Rattle.cli_base.specs.Story.{Story};
ghost use Rattle.command_line.specs.Words.{texts};
ghost use Rattle.raire_cli.specs.Acceptance.{IsUpheld};
ghost use Rattle.raire_cli.specs.Answers.{asked, file_count, files_known};
ghost use Rattle.raire_cli.specs.Audits.{IsAudited};
ghost use Rattle.raire_cli.specs.Confirmation.{IsConfirmed};
ghost use Rattle.raire_cli.specs.Contests.{IsAuditedByContest};
ghost use Rattle.raire_cli.specs.Enough.{IsNeverSpent};
ghost use Rattle.raire_cli.specs.Fewest.{IsFewest, IsFewestComplete, IsReasoned};
ghost use Rattle.raire_cli.specs.Openings.{IsOpened};
ghost use Rattle.raire_cli.specs.Pluralities.{IsPluralityAudited, IsPluralityOpened};
ghost use Rattle.raire_cli.specs.Polls.{IsPolled};
ghost use Rattle.raire_cli.specs.PollsComplete.{IsPollComplete};
ghost use Rattle.raire_cli.specs.PollsEach.{IsPolledEach};
ghost use Rattle.raire_cli.specs.Sets.{IsNeverSpentBySets, IsSpentBySets};
ghost use Rattle.raire_cli.specs.Trims.{IsTrimmed};
ghost use Rattle.raire_cli.specs.Adoptions.{AreAdopted, IsAdoptionComplete};
ghost use Rattle.raire_cli.specs.Promises.{IsComplete, IsTabulationComplete, IsTrialComplete, IsExactUnlessOpen, HasCause};
ghost use Rattle.raire_cli.specs.Undecided.{IsTied, IsTieComplete};

use crate::commands::answer_command;
use cli_base::{Answer, Refusal, deliver};
use command_line::read;
use desk::{Desk, Gate, Sink};
use std::thread::Threads;

/// Runs the command that the words give on the desk's files, and returns the status that the program ends with.
///
/// | status | meaning | written |
/// |---|---|---|
/// | 0 | the answer | `out` |
/// | 1 | the words aren't a command line | `err` |
/// | 2 | a rule refuses a file | `err` |
/// | 3 | the contest isn't decided: different ways of breaking its ties elect different candidates, or a plurality contest has a tie | `out` |
/// | 4 | the budget of nodes or sets is used up | `out` |
/// | 5 | the margin is below the floor, so a full count is called for | `out` |
/// | 6 | the assertion file doesn't hold for the ballots, or its claims don't prove its winner | `out` |
/// | 7 | a file could not be read | `err` |
/// | 8 | a text could not be written | part of it |
/// | 9 | memory ran out | `err` |
/// | 10 | the audit (or, in an audit of all contests, one of them) isn't signed off yet, or the poll doesn't confirm every claim | `out` |
/// | 11 | a file has more than `MOST_FILE_BYTES` bytes | `err` |
/// | 12 | there is no such file | `err` |
pub fn run<R: AllocGlobal + Threads + Sync, D: Desk, O: Sink, E: Sink, G: Gate + Sync>(
    rt: &R,
    words: &[String],
    desk: &mut D,
    out: &mut O,
    err: &mut E,
    gate: &G,
) -> u8
    // The assertions confirm the winner of a contest that is decided: every way of breaking its ties elects the same candidate.
    ensures headline { IsConfirmed (D.held desk.old) (texts words.now) result
        (writing O.Sink out.old out.new) }

    // So do the assertions of a search for the fewest NENs. No true assertions that confirm the winner have fewer NENs, as long as none of
    // their margins is below the best margin by more than the gap.
    ensures fewest { IsFewest (D.held desk.old) (texts words.now) result
        (writing O.Sink out.old out.new) }

    // An order is given as the reason for a full count.
    ensures full_count { IsReasoned (D.held desk.old) (texts words.now) result
        (writing O.Sink out.old out.new) }

    // A search of a contest that is decided ends with assertions or with a reason for a full count if its budget is large enough.
    ensures complete { IsComplete (D.held desk.old) (texts words.now)
        (Rose (D.faults desk.old) (D.faults desk.new)) result
        (writing O.Sink out.old out.new) (writing E.Sink err.old err.new) }

    // So does a search for the fewest NENs if it has as many sets as it needs.
    ensures complete_fewest { IsFewestComplete (D.held desk.old) (texts words.now)
        (Rose (D.faults desk.old) (D.faults desk.new)) result
        (writing O.Sink out.old out.new) (writing E.Sink err.old err.new) }

    // Different ways of breaking the contest's ties elect different candidates, and its first tie is printed; or a plurality contest has a
    // tie.
    ensures tied { IsTied (files_known (texts words.now) (D.held desk.old))
        (texts words.now) result (writing O.Sink out.old out.new) }

    // A search, a tabulation or a trial of a contest that isn't decided ends with its first tie if its budget is large enough.
    ensures complete_tie { IsTieComplete (files_known (texts words.now) (D.held desk.old))
        (texts words.now)
        (Rose (D.faults desk.old) (D.faults desk.new)) result
        (writing O.Sink out.old out.new) (writing E.Sink err.old err.new) }

    // A tabulation of a contest that is decided ends with its rounds if no round has a tie or its budget is large enough.
    ensures complete_tabulation { IsTabulationComplete (D.held desk.old) (texts words.now)
        (Rose (D.faults desk.old) (D.faults desk.new)) result
        (writing O.Sink out.old out.new) (writing E.Sink err.old err.new) }

    // If its budget is large enough, a trial ends with its lines or with its first tie, whatever the desk holds.
    ensures complete_trial { IsTrialComplete (texts words.now)
        (Rose (D.faults desk.old) (D.faults desk.new)) result
        (writing O.Sink out.old out.new) (writing E.Sink err.old err.new) }

    // With enough nodes or sets no check runs out of budget. This includes the checks before a trim, before a session is opened or continued,
    // and before a poll. An adoption doesn't run out either.
    ensures enough { IsNeverSpent (D.held desk.old) (texts words.now) result }

    // With at least 2^n - 3 sets no search or trial of n candidates runs out of budget. For a trial this holds over any desk.
    ensures enough_sets { IsNeverSpentBySets
        (files_known (texts words.now) (D.held desk.old)) (texts words.now) result }

    // A command with a number of sets runs out of them exactly when more sets count.
    ensures spent_sets { IsSpentBySets
        (files_known (texts words.now) (D.held desk.old)) (texts words.now) result }

    // An assertion file that is accepted holds.
    ensures accepted { IsUpheld (D.held desk.old) (texts words.now) result
        (writing O.Sink out.old out.new) }

    // A trimmed assertion file holds, like the file that was read. Each assertion of the trimmed file is needed.
    ensures trimmed { IsTrimmed (D.held desk.old) (texts words.now) result
        (writing O.Sink out.old out.new) }

    // Claims that are adopted are true of the records with the printed margins, and refute every order that elects a candidate other than
    // the winner.
    ensures adopted { AreAdopted (D.held desk.old) (texts words.now) result
        (writing O.Sink out.old out.new) }

    // Claims that are true of the records and refute all these orders are adopted if the budget is large enough.
    ensures complete_adoption { IsAdoptionComplete (D.held desk.old) (texts words.now)
        (Rose (D.faults desk.old) (D.faults desk.new)) result
        (writing O.Sink out.old out.new) (writing E.Sink err.old err.new) }

    // A session that is opened is the session of its words and files.
    ensures opened { IsOpened (D.held desk.old) (texts words.now) result
        (writing O.Sink out.old out.new) }

    // A session continues with the round that its files make, and is signed off exactly when the status is 0.
    ensures audited { IsAudited (D.held desk.old) (texts words.now) result
        (writing O.Sink out.old out.new) }

    // A poll prints the counts and risks of its files, and confirms every claim exactly when the status is 0. In that case each exact risk is
    // within the limit.
    ensures polled { IsPolled (D.held desk.old) (texts words.now) result
        (writing O.Sink out.old out.new) }

    // A poll with a look after each draw prints the counts and risks of its files, each up to the first draw that confirms the claim. It ends
    // with 0 exactly when every claim is confirmed by some draw.
    ensures polled_each { IsPolledEach (D.held desk.old) (texts words.now) result
        (writing O.Sink out.old out.new) }

    // A poll ends with its result if its files are held and accepted, its assertions are known to prove the winner, and each card that it
    // needs has a record of what is seen.
    ensures complete_poll { IsPollComplete (D.held desk.old) (texts words.now)
        (Rose (D.faults desk.old) (D.faults desk.new)) result
        (writing O.Sink out.old out.new) (writing E.Sink err.old err.new) }

    // When a session is opened for an audit of a plurality contest, it is the session of its words and files.
    ensures opened_plurality { IsPluralityOpened (D.held desk.old) (texts words.now) result
        (writing O.Sink out.old out.new) }

    // The session of a plurality contest continues with the round that its files make, and is signed off exactly when the status is 0.
    ensures audited_plurality { IsPluralityAudited (D.held desk.old) (texts words.now) result
        (writing O.Sink out.old out.new) }

    // An audit of all contests reports how each contest ends, based on its own ballots and what is seen for it. It is done exactly when each
    // contest is signed off.
    ensures audited_contests { IsAuditedByContest (D.held desk.old) (texts words.now) result
        (writing O.Sink out.old out.new) }

    // The status and texts are those defined for the files that the desk reports, or for some files that it may have given.
    ensures answer { IsAnswered (asked (texts words.now)) (D.held desk.old)
        (Rose (D.faults desk.old) (D.faults desk.new)) result
        (writing O.Sink out.old out.new) (writing E.Sink err.old err.new) }

    // Each status occurs in the cases defined for it, and the sinks took what is defined for that case.
    ensures status { HasCause (files_known (texts words.now) (D.held desk.old)) (texts words.now)
        (Rose (D.faults desk.old) (D.faults desk.new)) (D.served desk.old) (D.served desk.new) result
        (writing O.Sink out.old out.new) (writing E.Sink err.old err.new) }

    // A budget never leaves open how a command ends, except for a search, a tabulation, a trial or an audit of all contests. A number of sets
    // leaves nothing open.
    ensures exact { IsExactUnlessOpen
        (files_known (texts words.now) (D.held desk.old)) (texts words.now) result }

    // The desk begins the first files that the command reads, each once, and no others: all that the command reads before it answers or a
    // rule refuses, or those up to the file that 7, 11 or 12 names, or some of them if memory runs out. The outcome that these files make is
    // written.
    ensures begun { Story (asked (texts words.now)) (D.held desk.old)
        (Rose (D.faults desk.old) (D.faults desk.new)) (D.served desk.old) (D.served desk.new) result
        (writing O.Sink out.old out.new) (writing E.Sink err.old err.new) }

    // Unless the call ends with 8 or 9, it ends with 11 exactly when the desk served a file that is too long, and with 12 exactly when the
    // desk served that there is no such file, whether or not the desk reports what it holds. The number of files that `begun` is about is at
    // most the number that the words name, and with status 0 it is that number.
    ensures served { IsAccountedFor (file_count (texts words.now))
        (D.served desk.old) (D.served desk.new) result }

    // If the desk's count of faults rose, the call ends with 7, 8 or 9.
    ensures read_told { D.faults desk.old < D.faults desk.new → IsUndone result }

    // Statuses 1, 2, 7, 9, 11 and 12 leave `out` as it was.
    ensures kept { IsForErr result → Keeps (O.taken out.old) (O.taken out.new) }

    // No call changes what the desk holds.
    ensures held { D.held desk.new ≡ D.held desk.old }
{
    let outcome = answer(rt, words, desk, gate);
    deliver(&outcome, out, err)
}

// Answers the command that the words give, or refuses.
fn answer<R: AllocGlobal + Threads + Sync, D: Desk, G: Gate + Sync>(
    rt: &R,
    words: &[String],
    desk: &mut D,
    gate: &G,
) -> Result<Answer, Refusal>
    ensures held { D.held desk.new ≡ D.held desk.old }
    ensures faults { IsFaultTold (D.faults desk.old) (D.faults desk.new) (due result).status }
    ensures due { HasCome
        (ByDesk (D.held desk.old) (Rose (D.faults desk.old) (D.faults desk.new)))
        (D.served desk.old) (D.served desk.new) (asked (texts words.now)) (due result) }
    ensures served { IsAccountedFor (file_count (texts words.now))
        (D.served desk.old) (D.served desk.new) (due result).status }
{
    match read(rt.alloc(), words)? {
        Some(command) => answer_command(rt, &command, desk, gate),
        None => Err(Refusal::Words),
    }
}
