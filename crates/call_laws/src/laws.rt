//! The laws of the top call. Each law holds for every value that it names, and has no code.
ghost use Rattle.call_laws.specs.Agreement.{SameFilesSameAnswer, WorkersSameAnswer};
ghost use Rattle.call_laws.specs.ContestsAlone.{BlockAlone};
ghost use Rattle.call_laws.specs.ContestsLimit.{ContestIsCounted};
ghost use Rattle.call_laws.specs.ContestsSignedOff.{ContestSignedOffAreFew};
ghost use Rattle.call_laws.specs.EachStatus.{EachStatus};
ghost use Rattle.call_laws.specs.Laws.{WorkersAskTheSame, WorkersComeToTheSame, TrialsComeToTheSame, SetsComeToTheSame, FewestComeToTheSameStatus, TrialsBySetsComeToTheSame, BudgetsComeToTheSame, DefaultSuffices, MostSetsSuffice, MostSetsSufficeToAdopt, MostSetsSufficeToCheck, SignedOffIsCounted};
ghost use Rattle.call_laws.specs.PluralLaws.{PluralSignedOffAreFew, PluralSignedOffIsCounted};
ghost use Rattle.call_laws.specs.PollLaws.{ConfirmedAreFew, ConfirmedIsCounted};
ghost use Rattle.call_laws.specs.EachPollLaws.{EachConfirmedAreFew, EachConfirmedIsCounted};
ghost use Rattle.call_laws.specs.PrintedFiles.{FewestIsAccepted, FewestIsOpened, AdoptedIsAccepted, AdoptedIsOpened, PrintedIsAccepted, PrintedIsOpened, TrimmedIsAccepted, TrimmedIsTrimmed};
ghost use Rattle.call_laws.specs.ReadFaults.{SecondIsNamed};
ghost use Rattle.call_laws.specs.SignedOff.{SignedOffAreFew};

/// If two searches differ only in their number of workers, whatever the first may come to, the second may come to as well.
pub fn workers_ask_the_same()
    ensures { WorkersAskTheSame }
{}

/// Over the same files, searches that differ only in their number of workers come to the same status and bytes, unless a budget runs out.
pub fn workers_come_to_the_same()
    ensures { WorkersComeToTheSame }
{}

/// So do trials.
pub fn trials_come_to_the_same()
    ensures { TrialsComeToTheSame }
{}

/// With a number of sets, searches that differ only in their number of workers come to the same status and bytes.
pub fn sets_come_to_the_same()
    ensures { SetsComeToTheSame }
{}

/// So do trials.
pub fn trials_by_sets_come_to_the_same()
    ensures { TrialsBySetsComeToTheSame }
{}

/// Searches for the fewest NENs that differ only in their number of workers come to the same status.
pub fn fewest_come_to_the_same_status()
    ensures { FewestComeToTheSameStatus }
{}

/// Searches that differ only in their budgets, by nodes or by sets, and in their numbers of workers come to the same status and bytes, unless
/// a budget runs out.
pub fn budgets_come_to_the_same()
    ensures { BudgetsComeToTheSame }
{}

/// With the default number of nodes, no search of up to nine candidates runs out of budget.
pub fn default_suffices()
    ensures { DefaultSuffices }
{}

/// With the maximum number of sets, no search or trial of up to twenty candidates runs out of budget.
pub fn most_sets_suffice()
    ensures { MostSetsSuffice }
{}

/// The same holds for a check of an assertion file of up to twenty candidates.
pub fn most_sets_suffice_to_check()
    ensures { MostSetsSufficeToCheck }
{}

/// The same holds for an adoption of claims about up to twenty candidates.
pub fn most_sets_suffice_to_adopt()
    ensures { MostSetsSufficeToAdopt }
{}

/// If each drawn card was read as it is or is missing, a session that an audit signs off is among those that the risk limit counts.
pub fn signed_off_is_counted()
    ensures { SignedOffIsCounted }
{}

/// If the actual rankings of the cards may elect a candidate other than the assertion file's winner, and each drawn card is read as it is
/// or is missing, then audits with the same files, limit and gamma are signed off on at most `limit` millionths of all sequences of draws.
pub fn signed_off_are_few()
    ensures { SignedOffAreFew }
{}

/// If each drawn card was read as it is or is missing, a poll that confirms all claims is among those that the risk limit of polls counts.
pub fn confirmed_is_counted()
    ensures { ConfirmedIsCounted }
{}

/// If the actual rankings of the cards may elect a candidate other than the assertion file's winner, and each drawn card is read as it is
/// or is missing, then polls with the same manifest, assertion file, limit and gamma confirm all claims on at most `limit` millionths of
/// all sequences of draws.
pub fn confirmed_are_few()
    ensures { ConfirmedAreFew }
{}

/// If each drawn card was read as it is or is missing, a poll with a look after each draw that confirms all claims is among those that its
/// risk limit counts. This also holds among sequences of more draws.
pub fn each_confirmed_is_counted()
    ensures { EachConfirmedIsCounted }
{}

/// If the actual rankings of the cards may elect a candidate other than the winner that the assertions prove, and each drawn card is read
/// as it is or is missing, then polls with a look after each draw and with the same manifest, assertion file, limit and gamma confirm all
/// claims on at most `limit` millionths of all sequences of draws.
pub fn each_confirmed_are_few()
    ensures { EachConfirmedAreFew }
{}

/// If each drawn card was read as it is or is missing, a session that an audit of a plurality contest signs off is among those that the risk
/// limit counts.
pub fn plural_signed_off_is_counted()
    ensures { PluralSignedOffIsCounted }
{}

/// If another candidate has at least as many first preferences on the cards as the winner, and each drawn card is read as it is or is
/// missing, then audits with the same ballots, manifest, contest, limit and gamma are signed off on at most `limit` millionths of all
/// sequences of draws.
pub fn plural_signed_off_are_few()
    ensures { PluralSignedOffAreFew }
{}

/// If no budget runs out, the block of a contest among others is what the same command prints for it by itself, that is, if the ballot file
/// has `1` as its first record and neither the ballot file nor the seen file has a record of another contest. The law is about two calls,
/// with any number of workers in each.
pub fn block_alone()
    ensures { BlockAlone }
{}

/// If each drawn card was read as it is or is missing, a contest that an audit of all contests signs off is among those that its own risk
/// limit counts, up to any number of draws.
pub fn contest_is_counted()
    ensures { ContestIsCounted }
{}

/// If, in one contest, the actual rankings of the cards may elect a candidate other than the winner that its assertions name, and each
/// drawn card is read as it is or is missing, then audits of all contests with the same ballots, manifest, limit and gamma sign the contest
/// off on at most `limit` millionths of all sequences of draws.
pub fn contest_signed_off_are_few()
    ensures { ContestSignedOffAreFew }
{}

/// Two calls with the same words, over desks that hold the same files, have the same status and write the same texts. This holds if nothing
/// failed, memory was found, no search, tabulation or trial ran out of nodes, no audit of all contests might run out, and the words don't ask
/// for the fewest NENs.
pub fn same_files_same_answer()
    ensures { SameFilesSameAnswer }
{}

/// So do two calls whose words differ only in `--workers`.
pub fn workers_same_answer()
    ensures { WorkersSameAnswer }
{}

/// A check of the same ballots and contest with the same budget accepts what a search printed, if the printed text isn't too long for a
/// file, nothing failed and memory was found. The law is about two successive calls.
pub fn printed_is_accepted()
    ensures { PrintedIsAccepted }
{}

/// A session is opened with what a search printed, if the ballots, the contest and the budget are the same, the printed text isn't too long
/// for a file, the manifest has a card for each ballot, nothing failed and memory was found.
pub fn printed_is_opened()
    ensures { PrintedIsOpened }
{}

/// A check of the same ballots and contest with the same number of sets accepts what a search for the fewest NENs printed, if the printed
/// text isn't too long for a file, nothing failed and memory was found.
pub fn fewest_is_accepted()
    ensures { FewestIsAccepted }
{}

/// A session is opened with what a search for the fewest NENs printed, if the ballots, the contest and the number of sets are the same, the
/// printed text isn't too long for a file, the manifest has a card for each ballot, nothing failed and memory was found.
pub fn fewest_is_opened()
    ensures { FewestIsOpened }
{}

/// A check of the same ballots and contest with the same budget accepts what a trim printed, if the printed text isn't too long for a file,
/// nothing failed and memory was found.
pub fn trimmed_is_accepted()
    ensures { TrimmedIsAccepted }
{}

/// A trim of what a trim printed, with the same ballots, contest and budget, prints the same text, unless the budget runs out, if the text
/// isn't too long for a file, nothing failed and memory was found.
pub fn trimmed_is_trimmed()
    ensures { TrimmedIsTrimmed }
{}

/// A check of the same ballots and contest with the same budget accepts what an adoption printed, if the printed text isn't too long for a
/// file, nothing failed and memory was found.
pub fn adopted_is_accepted()
    ensures { AdoptedIsAccepted }
{}

/// A session is opened with what an adoption printed, if the ballots, the contest and the budget are the same, the printed text isn't too
/// long for a file, the manifest has a card for each ballot, nothing failed and memory was found.
pub fn adopted_is_opened()
    ensures { AdoptedIsOpened }
{}

/// Every status results from some words and files, except 7, 8 and 9, which result from a desk, a sink or memory.
pub fn each_status_comes()
    ensures { EachStatus }
{}

/// If the desk fails at the second file of a check, the assertion file is the one that is named.
pub fn second_is_named()
    ensures { SecondIsNamed }
{}
