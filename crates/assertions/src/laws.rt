//! The laws of the definitions. Each law holds for every value that it names, and has no code.
ghost use Rattle.assertions.specs.Laws.{NebFor, NebAgainst, AssorterIs, AssorterSums, TrueMargin, AssertionsAreProper, AssertionsRise, FixedOrderIsTotal, FixedOrderIsOrd, NumbersRise, RefutesWhere, RefutesLonger, CoverIsSound, OrdersEnding, AlternativeOrders, AlternativeOrdersRise, SuffixesEnding, PartsEnding, PartsRise, PartsAreFew, CountsAreFew, CoverCountIs, SuffixGrows, LowIsGreatest, LowGrows, LowOfMore, LowOfNone, RefuterIsFirst, RefuterOrNone, ScoreOfMore, ScoreOfNone, PossibleIffUnrefuted, NenAgainstImpossible, NothingAgainstPossible, BestIsLeast, DecidedIsPositive, DecidedExactly, FirstBoundIsZero, ProofIffDecided, FirstOverAll, StartIsAlternative, FrontierBounds, NoneBeatsBest, CertificateIsProper, CertificateIsTrue, CertificateCovers, CertificateReachesBest, CertificateHasBest, CertificateOrder, CertificateOrderIsFirst, CertificateRefutes, EndsAreShortest, EndsAreOne, CertificateIs, CertificateIsOne, RecordsInAnyOrder, TwoCandidates};

/// The votes that a NEB has for its winner are those that the winner has with all candidates left.
pub fn neb_for()
    ensures { NebFor }
{}

/// The votes that a NEB has against its winner are those that the loser has with only these two left.
pub fn neb_against()
    ensures { NebAgainst }
{}

/// Each assorter value is at most 2.
pub fn assorter_is()
    ensures { AssorterIs }
{}

/// The margin is the sum of the assorter values, each minus 1.
pub fn assorter_sums()
    ensures { AssorterSums }
{}

/// An assertion is true exactly if its margin is above 0.
pub fn true_margin()
    ensures { TrueMargin }
{}

/// The list of all assertions has exactly the proper assertions.
pub fn assertions_are_proper()
    ensures { AssertionsAreProper }
{}

/// The list of all assertions has each of them once, in the fixed order.
pub fn assertions_rise()
    ensures { AssertionsRise }
{}

/// The fixed order is a strict total order.
pub fn fixed_order_is_total()
    ensures { FixedOrderIsTotal }
{}

/// The fixed order is the order of `Assertion` in `Ord`.
pub fn fixed_order_is_ord()
    ensures { FixedOrderIsOrd }
{}

/// If the parts of assertions have their digits, the numbers of the assertions compare as `Ord` compares the assertions, and no two
/// have the same number.
pub fn numbers_rise()
    ensures { NumbersRise }
{}

/// NEB refutes a suffix exactly if its loser is in it and its winner doesn't come after the loser. NEN does exactly if its winner
/// and those after it are the rest.
pub fn refutes_where()
    ensures { RefutesWhere }
{}

/// An assertion that refutes a suffix refutes each longer one.
pub fn refutes_longer()
    ensures { RefutesLonger }
{}

/// Proper assertions that refute each order that elects another candidate prove the winner of any records of which they are all
/// true, no matter how ties are broken.
pub fn cover_is_sound()
    ensures { CoverIsSound }
{}

/// The list of the orders that end in a suffix has exactly these orders.
pub fn orders_ending()
    ensures { OrdersEnding }
{}

/// The list of the orders that elect another candidate has exactly these orders.
pub fn alternative_orders()
    ensures { AlternativeOrders }
{}

/// Each alternative order is listed once, and the list is increasing when its orders are read backwards.
pub fn alternative_orders_rise()
    ensures { AlternativeOrdersRise }
{}

/// The list of the suffixes that end in a suffix, and are longer by at most `k`, has exactly these suffixes.
pub fn suffixes_ending()
    ensures { SuffixesEnding }
{}

/// The suffixes that the cover count and the order count go through: those that end in a candidate and aren't whole orders.
pub fn parts_ending()
    ensures { PartsEnding }
{}

/// Each suffix that the counts go through is listed once, and the list is increasing when its suffixes are read backwards.
pub fn parts_rise()
    ensures { PartsRise }
{}

/// The counts go through at most `2 * (n - 1)!` suffixes.
pub fn parts_are_few()
    ensures { PartsAreFew }
{}

/// The cover count and the order count are at most `2 * (n - 1)!`.
pub fn counts_are_few()
    ensures { CountsAreFew }
{}

/// The cover count is the number of suffixes that end in the candidate, aren't whole orders, and have a low below the margin.
pub fn cover_count_is()
    ensures { CoverCountIs }
{}

/// An order that ends in a suffix is that suffix, or ends in one that is longer by one.
pub fn suffix_grows()
    ensures { SuffixGrows }
{}

/// The low of a suffix is the greatest margin of a true assertion that refutes it, or 0.
pub fn low_is_greatest()
    ensures { LowIsGreatest }
{}

/// The low of a suffix is at most the low of a longer one.
pub fn low_grows()
    ensures { LowGrows }
{}

/// The low of a suffix is the greater of its parent's low and the greatest margin that its first candidate adds.
pub fn low_of_more()
    ensures { LowOfMore }
{}

/// Nothing refutes the empty suffix.
pub fn low_of_none()
    ensures { LowOfNone }
{}

/// The refuter of a suffix is the first true assertion, in the fixed order, that refutes it and has its low as the margin.
pub fn refuter_is_first()
    ensures { RefuterIsFirst }
{}

/// A suffix has no refuter exactly if its low is 0.
pub fn refuter_or_none()
    ensures { RefuterOrNone }
{}

/// The low and the refuter of a suffix follow from those of its parent and from what its first candidate adds.
pub fn score_of_more()
    ensures { ScoreOfMore }
{}

/// The empty suffix has the low 0 and no refuter.
pub fn score_of_none()
    ensures { ScoreOfNone }
{}

/// An order is possible exactly if no true assertion refutes it.
pub fn possible_iff_unrefuted()
    ensures { PossibleIffUnrefuted }
{}

/// The best margin is at most the hardness of each alternative order.
pub fn best_is_least()
    ensures { BestIsLeast }
{}

/// A true NEN refutes each order that isn't possible.
pub fn nen_against_impossible()
    ensures { NenAgainstImpossible }
{}

/// No true assertion contradicts a possible order.
pub fn nothing_against_possible()
    ensures { NothingAgainstPossible }
{}

/// All possible orders elect a candidate exactly if the smallest hardness of the other orders is at least 1.
pub fn decided_is_positive()
    ensures { DecidedIsPositive }
{}

/// A contest is decided exactly if the best margin is at least 1.
pub fn decided_exactly()
    ensures { DecidedExactly }
{}

/// The bound from which a search starts is 0 exactly if the last two candidates tie.
pub fn first_bound_is_zero()
    ensures { FirstBoundIsZero }
{}

/// True claims that cover all alternative orders exist exactly if all possible orders elect the candidate.
pub fn proof_iff_decided()
    ensures { ProofIffDecided }
{}

/// A candidate who isn't eliminated before any other has won, whatever ties there are among the others.
pub fn first_over_all()
    ensures { FirstOverAll }
{}

/// The order from which the search starts elects a candidate other than the winner.
pub fn start_is_alternative()
    ensures { StartIsAlternative }
{}

/// Suffixes in which all alternative orders end bound the best margin.
pub fn frontier_bounds()
    ensures { FrontierBounds }
{}

/// No set of proper assertions that refutes all alternative orders has a greater smallest margin.
pub fn none_beats_best()
    ensures { NoneBeatsBest }
{}

/// The certificate's assertions are proper.
pub fn certificate_is_proper()
    ensures { CertificateIsProper }
{}

/// The certificate's assertions are true of the records, whatever the best margin.
pub fn certificate_is_true()
    ensures { CertificateIsTrue }
{}

/// If the best margin is above 0, the certificate's assertions refute each alternative order.
pub fn certificate_covers()
    ensures { CertificateCovers }
{}

/// Each of the certificate's assertions has at least the best margin.
pub fn certificate_reaches_best()
    ensures { CertificateReachesBest }
{}

/// If the best margin is above 0, one of the certificate's assertions has exactly that margin.
pub fn certificate_has_best()
    ensures { CertificateHasBest }
{}

/// The certificate's order is an alternative order that has the best margin.
pub fn certificate_order()
    ensures { CertificateOrder }
{}

/// The certificate's order is the smallest, read backwards, of the alternative orders that have the best margin.
pub fn certificate_order_is_first()
    ensures { CertificateOrderIsFirst }
{}

/// If the best margin is above 0, one of the certificate's assertions refutes a suffix that ends in a candidate other than the
/// winner exactly if the suffix's low reaches that margin.
pub fn certificate_refutes()
    ensures { CertificateRefutes }
{}

/// An end of the certificate is the shortest of its suffixes that reaches the margin.
pub fn ends_are_shortest()
    ensures { EndsAreShortest }
{}

/// Each alternative order ends in exactly one end of the certificate.
pub fn ends_are_one()
    ensures { EndsAreOne }
{}

/// The certificate, as it is defined, meets its rules.
pub fn certificate_is()
    ensures { CertificateIs }
{}

/// Only the certificate meets its rules: the records determine the margin, the order and the assertions.
pub fn certificate_is_one()
    ensures { CertificateIsOne }
{}

/// The certificate is the same for the records in any order.
pub fn records_in_any_order()
    ensures { RecordsInAnyOrder }
{}

/// The certificate for two candidates is NEB, and its margin is the lead of the winner.
pub fn two_candidates()
    ensures { TwoCandidates }
{}
