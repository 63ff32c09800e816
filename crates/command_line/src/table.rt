// The commands and the options, one line for each.
ghost use Rattle.std.specs.Prelude.{◌≡◌, [], map};
ghost use Rattle.command_line.specs.Table.{form_of, text_of, kind_of, is_flag, is_needed, is_same, default_of};
ghost use Rattle.command_line.specs.declared.table.ValueKind.TheVariants.{Number, FreeNumber, NumberOrBest};

use budget::{DEFAULT_NODES, MOST_NODES, MOST_SETS};
use command::{
    DEFAULT_BALLOTS, DEFAULT_CANDIDATES, DEFAULT_FLOOR, DEFAULT_GAMMA, DEFAULT_GAP, DEFAULT_LIMIT,
    DEFAULT_WORKERS, MOST_FLOOR, MOST_GAP, MOST_TRIAL_NUMBER,
};
use irv_base::{
    FEWEST_CANDIDATES, GREATEST_GAMMA, GREATEST_LIMIT, MOST_CANDIDATES, MOST_CARDS, MOST_DRAWS,
    MOST_RECORDS, MOST_WORKERS,
};
use km_risk::GREATEST_EACH_GAMMA;

/// The commands.
#[derive(Clone, Copy, Debug, PartialEq, Eq)]
pub enum CommandName {
    /// `search`: the assertions that confirm a winner.
    Search,
    /// `search` with `--fewest`: assertions like these with the fewest NENs.
    SearchFewest,
    /// `tabulate`: the rounds of a contest.
    Tabulate,
    /// `check`: whether an assertion file holds.
    Check,
    /// `trim`: an assertion file without the claims that can be removed.
    Trim,
    /// `adopt`: an assertion file with the assertions of a claims file.
    Adopt,
    /// `sample`: the cards that a seed draws.
    Sample,
    /// `plan`: the number of draws that a clean audit takes.
    Plan,
    /// `open`: the session of an audit before its first round.
    Open,
    /// `audit`: the session with one more round.
    Audit,
    /// `report`: what a session says.
    Report,
    /// `poll`: whether what is on the drawn cards confirms the assertions, with no card matched to its record.
    Poll,
    /// `poll` with `--each`: the same, with a look after each draw.
    PollEach,
    /// `plurality` with two files: the session of an audit of first preferences, before its first round.
    OpenPlurality,
    /// `plurality` with four files: that session with one more round.
    AuditPlurality,
    /// `contests`: one round of an audit of each contest of a file.
    Contests,
    /// `trial`: the result of a search of a drawn contest.
    Trial,
}

/// The options.
#[derive(Clone, Copy, Debug, PartialEq, Eq)]
pub enum OptionName {
    /// The id of a contest.
    Contest,
    /// The number of threads that search.
    Workers,
    /// The maximum number of suffixes that a race may expand for one piece, or that may count for one candidate.
    Nodes,
    /// The maximum number of sets of candidates that may count, in place of suffixes.
    Sets,
    /// The maximum number of sets that may stand in a search for the fewest NENs. It has the same name as `Sets`.
    FewestSets,
    /// Makes a search one for the fewest NENs.
    Fewest,
    /// The smallest margin of a search, in votes.
    Floor,
    /// How far below the best margin a search for the fewest NENs may end, in thousandths of it.
    Gap,
    /// The number of cards that the manifest will have, for an assertion file that carries its clean draws.
    Cards,
    /// The seed of the draws.
    Seed,
    /// The number of draws, counted from the first draw of the audit.
    Draws,
    /// The risk limit, in millionths.
    Limit,
    /// The gamma, in thousandths.
    Gamma,
    /// The gamma of a poll with a look after each draw, in thousandths or as a word. It has the same name as `Gamma`.
    EachGamma,
    /// Makes a poll look after each draw.
    Each,
    /// The number that a trial is drawn from.
    Number,
    /// The number of candidates in a trial.
    Candidates,
    /// The number of ballots in a trial.
    Ballots,
}

/// What the value of an option may be.
#[derive(Clone, Copy, Debug, PartialEq, Eq)]
pub enum ValueKind {
    /// An id. A line may leave it out.
    Id,
    /// A seed. A line must give it.
    Seed,
    /// A number within these limits. A line may omit it if it has a default.
    Number {
        /// The smallest number.
        least: u32,
        /// The greatest number.
        most: u32,
        /// The number for a line that doesn't give one. Without this default, a line must give one.
        default: Option<u32>,
    },
    /// A number within these limits. A line may leave it out, and there is no default for that case.
    FreeNumber {
        /// The smallest number.
        least: u32,
        /// The greatest number.
        most: u32,
    },
    /// A number within these limits, or the word `BEST`. A line may leave it out.
    NumberOrBest {
        /// The smallest number.
        least: u32,
        /// The greatest number.
        most: u32,
        /// The number for a line that doesn't give one.
        default: u32,
    },
    /// Nothing: the option has no value. A line must give the option.
    Flag,
}

/// An option that a line may give only if it also gives another one.
#[derive(Clone, Copy, Debug, PartialEq, Eq)]
pub struct Together {
    /// The option.
    pub option: OptionName,
    /// The one that it needs.
    pub with: OptionName,
}

/// Two options that a line may not give together.
#[derive(Clone, Copy, Debug, PartialEq, Eq)]
pub struct Apart {
    /// The first option.
    pub option: OptionName,
    /// The second option.
    pub other: OptionName,
}

/// What a line of a command has: its word, its files in order, the options that it may have, the options that it may give only together
/// with others, and the options that it may give only without others.
#[derive(Clone, Copy)]
pub struct Form<'f> {
    /// The command's word.
    pub word: &'f str,
    /// The names of its files, in the order in which a line gives them.
    pub files: &'f [&'f str],
    /// The options that a line may have, in any order.
    pub options: &'f [OptionName],
    /// The options that need another one.
    pub together: &'f [Together],
    /// The options that exclude each other.
    pub apart: &'f [Apart],
}

/// All commands.
pub const COMMANDS: [CommandName; 17] = [
    CommandName::Search,
    CommandName::SearchFewest,
    CommandName::Tabulate,
    CommandName::Check,
    CommandName::Trim,
    CommandName::Adopt,
    CommandName::Sample,
    CommandName::Plan,
    CommandName::Open,
    CommandName::Audit,
    CommandName::Report,
    CommandName::Poll,
    CommandName::PollEach,
    CommandName::OpenPlurality,
    CommandName::AuditPlurality,
    CommandName::Contests,
    CommandName::Trial,
];

/// The name of a ballot file among the files of a line.
pub const BALLOTS: &str = "ballots";

/// The name of an assertion file.
pub const ASSERTIONS: &str = "assertions";

/// The name of a claims file.
pub const CLAIMS: &str = "claims";

/// The name of a manifest.
pub const MANIFEST: &str = "manifest";

/// The name of a session file.
pub const SESSION: &str = "session";

/// The name of a file of seen cards.
pub const SEEN: &str = "seen";

/// The word that asks for the gamma that fits the margin of each assertion.
pub const BEST: &str = "best";

// A budget is in nodes or in sets.
const BUDGETS: [Apart; 1] = [Apart {
    option: OptionName::Nodes,
    other: OptionName::Sets,
}];

const SEARCH_OPTIONS: [OptionName; 8] = [
    OptionName::Contest,
    OptionName::Workers,
    OptionName::Nodes,
    OptionName::Sets,
    OptionName::Floor,
    OptionName::Cards,
    OptionName::Limit,
    OptionName::Gamma,
];

const SEARCH_FEWEST_OPTIONS: [OptionName; 9] = [
    OptionName::Contest,
    OptionName::Workers,
    OptionName::FewestSets,
    OptionName::Floor,
    OptionName::Gap,
    OptionName::Cards,
    OptionName::Limit,
    OptionName::Gamma,
    OptionName::Fewest,
];

// No draws are planned without a number of cards.
const SEARCH_TOGETHER: [Together; 2] = [
    Together {
        option: OptionName::Limit,
        with: OptionName::Cards,
    },
    Together {
        option: OptionName::Gamma,
        with: OptionName::Cards,
    },
];

// The options of `check`, `trim` and `adopt`.
const CHECK_OPTIONS: [OptionName; 3] = [OptionName::Contest, OptionName::Nodes, OptionName::Sets];

const OPEN_OPTIONS: [OptionName; 6] = [
    OptionName::Seed,
    OptionName::Contest,
    OptionName::Limit,
    OptionName::Gamma,
    OptionName::Nodes,
    OptionName::Sets,
];

const AUDIT_OPTIONS: [OptionName; 3] = [OptionName::Draws, OptionName::Nodes, OptionName::Sets];

const POLL_OPTIONS: [OptionName; 5] = [
    OptionName::Seed,
    OptionName::Draws,
    OptionName::Limit,
    OptionName::Gamma,
    OptionName::Nodes,
];

const POLL_EACH_OPTIONS: [OptionName; 6] = [
    OptionName::Seed,
    OptionName::Draws,
    OptionName::Limit,
    OptionName::EachGamma,
    OptionName::Nodes,
    OptionName::Each,
];

const OPEN_PLURALITY_OPTIONS: [OptionName; 4] = [
    OptionName::Seed,
    OptionName::Contest,
    OptionName::Limit,
    OptionName::Gamma,
];

const CONTESTS_OPTIONS: [OptionName; 6] = [
    OptionName::Seed,
    OptionName::Draws,
    OptionName::Limit,
    OptionName::Gamma,
    OptionName::Workers,
    OptionName::Nodes,
];

const TRIAL_OPTIONS: [OptionName; 6] = [
    OptionName::Number,
    OptionName::Candidates,
    OptionName::Ballots,
    OptionName::Workers,
    OptionName::Nodes,
    OptionName::Sets,
];

impl<'f> Form<'f> {
    fn of(word: &'f str, files: &'f [&'f str], options: &'f [OptionName]) -> Form<'f>
        ensures word { result.word.now ≡ word.entry.now }
        ensures files { map (λ name. name.now) result.files.now
            ≡ map (λ name. name.now) files.entry.now }
        ensures options { result.options.now ≡ options.entry.now }
        ensures together { result.together.now ≡ [] }
        ensures apart { result.apart.now ≡ [] }
    {
        Form {
            word,
            files,
            options,
            together: &[],
            apart: &[],
        }
    }

    fn together(self, together: &'f [Together]) -> Form<'f>
        ensures word { result.word.now ≡ self.entry.word.now }
        ensures files { map (λ name. name.now) result.files.now
            ≡ map (λ name. name.now) self.entry.files.now }
        ensures options { result.options.now ≡ self.entry.options.now }
        ensures together { result.together.now ≡ together.entry.now }
        ensures apart { result.apart.now ≡ self.entry.apart.now }
    {
        Form { together, ..self }
    }

    fn apart(self, apart: &'f [Apart]) -> Form<'f>
        ensures word { result.word.now ≡ self.entry.word.now }
        ensures files { map (λ name. name.now) result.files.now
            ≡ map (λ name. name.now) self.entry.files.now }
        ensures options { result.options.now ≡ self.entry.options.now }
        ensures together { result.together.now ≡ self.entry.together.now }
        ensures apart { result.apart.now ≡ apart.entry.now }
    {
        Form { apart, ..self }
    }
}

impl CommandName {
    /// What a line of the command has: a row of the table of commands.
    pub fn form<'f>(self) -> Form<'f>
        ensures word { result.word.now ≡ (form_of self).word }
        ensures files { map (λ name. name.now) result.files.now ≡ (form_of self).files }
        ensures options { result.options.now ≡ (form_of self).options }
        ensures together { result.together.now ≡ (form_of self).together }
        ensures apart { result.apart.now ≡ (form_of self).apart }
    {
        match self {
            CommandName::Search => Form::of("search", &[BALLOTS], &SEARCH_OPTIONS)
                .together(&SEARCH_TOGETHER)
                .apart(&BUDGETS),
            CommandName::SearchFewest => {
                Form::of("search", &[BALLOTS], &SEARCH_FEWEST_OPTIONS).together(&SEARCH_TOGETHER)
            }
            CommandName::Tabulate => Form::of(
                "tabulate",
                &[BALLOTS],
                &[OptionName::Contest, OptionName::Nodes],
            ),
            CommandName::Check => {
                Form::of("check", &[BALLOTS, ASSERTIONS], &CHECK_OPTIONS).apart(&BUDGETS)
            }
            CommandName::Trim => {
                Form::of("trim", &[BALLOTS, ASSERTIONS], &CHECK_OPTIONS).apart(&BUDGETS)
            }
            CommandName::Adopt => {
                Form::of("adopt", &[BALLOTS, CLAIMS], &CHECK_OPTIONS).apart(&BUDGETS)
            }
            CommandName::Sample => {
                Form::of(
                    "sample",
                    &[MANIFEST],
                    &[OptionName::Seed, OptionName::Draws],
                )
            }
            CommandName::Plan => Form::of(
                "plan",
                &[MANIFEST, ASSERTIONS],
                &[OptionName::Limit, OptionName::Gamma],
            ),
            CommandName::Open => {
                Form::of("open", &[BALLOTS, MANIFEST, ASSERTIONS], &OPEN_OPTIONS).apart(&BUDGETS)
            }
            CommandName::Audit => Form::of(
                "audit",
                &[SESSION, BALLOTS, MANIFEST, ASSERTIONS, SEEN],
                &AUDIT_OPTIONS,
            )
            .apart(&BUDGETS),
            CommandName::Report => Form::of("report", &[SESSION], &[]),
            CommandName::Poll => Form::of("poll", &[MANIFEST, ASSERTIONS, SEEN], &POLL_OPTIONS),
            CommandName::PollEach => {
                Form::of("poll", &[MANIFEST, ASSERTIONS, SEEN], &POLL_EACH_OPTIONS)
            }
            CommandName::OpenPlurality => {
                Form::of("plurality", &[BALLOTS, MANIFEST], &OPEN_PLURALITY_OPTIONS)
            }
            CommandName::AuditPlurality => Form::of(
                "plurality",
                &[SESSION, BALLOTS, MANIFEST, SEEN],
                &[OptionName::Draws],
            ),
            CommandName::Contests => {
                Form::of("contests", &[BALLOTS, MANIFEST, SEEN], &CONTESTS_OPTIONS)
            }
            CommandName::Trial => Form::of("trial", &[], &TRIAL_OPTIONS).apart(&BUDGETS),
        }
    }
}

fn number(least: u32, most: u32, default: Option<u32>) -> ValueKind
    ensures { result ≡ Number least most default }
{
    ValueKind::Number {
        least,
        most,
        default,
    }
}

fn free_number(least: u32, most: u32) -> ValueKind
    ensures { result ≡ FreeNumber least most }
{
    ValueKind::FreeNumber { least, most }
}

fn number_or_best(least: u32, most: u32, default: u32) -> ValueKind
    ensures { result ≡ NumberOrBest least most default }
{
    ValueKind::NumberOrBest {
        least,
        most,
        default,
    }
}

impl OptionName {
    /// The option's name, without the hyphens.
    pub fn text<'t>(self) -> &'t str
        ensures { result.now ≡ text_of self }
    {
        match self {
            OptionName::Contest => "contest",
            OptionName::Workers => "workers",
            OptionName::Nodes => "nodes",
            OptionName::Sets | OptionName::FewestSets => "sets",
            OptionName::Fewest => "fewest",
            OptionName::Floor => "floor",
            OptionName::Gap => "gap",
            OptionName::Cards => "cards",
            OptionName::Seed => "seed",
            OptionName::Draws => "draws",
            OptionName::Limit => "limit",
            OptionName::Gamma | OptionName::EachGamma => "gamma",
            OptionName::Each => "each",
            OptionName::Number => "number",
            OptionName::Candidates => "candidates",
            OptionName::Ballots => "ballots",
        }
    }

    /// What its value may be: a row of the table of options.
    pub fn kind(self) -> ValueKind
        ensures { result ≡ kind_of self }
    {
        match self {
            OptionName::Contest => ValueKind::Id,
            OptionName::Workers => number(1, MOST_WORKERS, Some(DEFAULT_WORKERS)),
            OptionName::Nodes => number(1, MOST_NODES, Some(DEFAULT_NODES)),
            OptionName::Sets => free_number(1, MOST_SETS),
            OptionName::FewestSets => number(1, MOST_SETS, Some(MOST_SETS)),
            OptionName::Fewest => ValueKind::Flag,
            OptionName::Floor => number(1, MOST_FLOOR, Some(DEFAULT_FLOOR)),
            OptionName::Gap => number(0, MOST_GAP, Some(DEFAULT_GAP)),
            OptionName::Cards => free_number(1, MOST_CARDS),
            OptionName::Seed => ValueKind::Seed,
            OptionName::Draws => number(1, MOST_DRAWS, None),
            OptionName::Limit => number(1, GREATEST_LIMIT, Some(DEFAULT_LIMIT)),
            OptionName::Gamma => number(1, GREATEST_GAMMA, Some(DEFAULT_GAMMA)),
            OptionName::EachGamma => number_or_best(1, GREATEST_EACH_GAMMA, DEFAULT_GAMMA),
            OptionName::Each => ValueKind::Flag,
            OptionName::Number => number(0, MOST_TRIAL_NUMBER, None),
            OptionName::Candidates => {
                number(FEWEST_CANDIDATES, MOST_CANDIDATES, Some(DEFAULT_CANDIDATES))
            }
            OptionName::Ballots => number(1, MOST_RECORDS, Some(DEFAULT_BALLOTS)),
        }
    }

    /// Whether it is the same option as the other. Two options may have the same name.
    pub fn is_same(self, other: OptionName) -> bool
        ensures { result ≡ is_same self other }
    {
        self == other
    }
}

impl ValueKind {
    /// Whether the option has no value.
    pub fn is_flag(self) -> bool
        ensures { result ≡ is_flag self }
    {
        matches!(self, ValueKind::Flag)
    }

    /// Whether a line must give a value of this kind.
    pub fn is_needed(self) -> bool
        ensures { result ≡ is_needed self }
    {
        match self {
            ValueKind::Id => false,
            ValueKind::Seed | ValueKind::Flag => true,
            ValueKind::Number { default, .. } => default.is_none(),
            ValueKind::FreeNumber { .. } | ValueKind::NumberOrBest { .. } => false,
        }
    }

    /// The number for a line that doesn't give the option.
    pub fn default(self) -> u32
        ensures { result ≡ default_of self }
    {
        match self {
            ValueKind::Number { default, .. } => default.unwrap_or(0),
            ValueKind::NumberOrBest { default, .. } => default,
            _ => 0,
        }
    }
}
