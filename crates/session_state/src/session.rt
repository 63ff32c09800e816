// The session of an audit.
ghost use Rattle.std.specs.Prelude.{◌≡◌, ◌<◌, ◌≤◌, All, IfOk, OnErr};
ghost use Rattle.irv_base.specs.declared.limits.TheConstants.{GREATEST_LIMIT, MOST_DRAWS};
ghost use Rattle.session_state.specs.Content.{IsSound, IsWithinLimits, with_round};
ghost use Rattle.session_state.specs.Sessions.{IsRound, IsSession};

use crate::digests::Digests;
use crate::round::DoneRound;
use irv_base::{Memory, Name};
use sampler::Seed;
use std::marker::Model;

/// The session of an audit: the contest, the cards of the manifest, the margin of each claim in votes, the seed of the draws, the
/// risk limit in millionths, gamma in thousandths, the digests of the files, and the finished rounds.
///
/// There is at least one claim, and each margin is 1 to the number of cards. The draws increase from round to round. Each round has as many
/// counts and risks as there are claims. The counts are over all its draws, and the risk of a claim is the printed risk of its counts.
///
/// In a contract, a session is the record of these values, with a list for each list.
#[derive(Drop)]
pub struct Session {
    contest: Name,
    cards: u32,
    margins: Vec<u32>,
    seed: Seed,
    limit: u32,
    gamma: u32,
    digests: Digests,
    rounds: Vec<DoneRound>,
}

impl Model for Session {
    ghost use Rattle.session_state.specs.Content.{Content, IsSound};

    ghost Value = { Content };

    ghost view = { λ s. record {
      contest = s.contest;
      seed = s.seed;
      digests = s.digests;
      session = record {
        cards = s.cards;
        margins = s.margins.items;
        limit = s.limit;
        gamma = s.gamma;
        rounds = s.rounds.items;
      };
    } };

    ghost invariant = { λ s. IsSound (record {
      contest = s.contest;
      seed = s.seed;
      digests = s.digests;
      session = record {
        cards = s.cards;
        margins = s.margins.items;
        limit = s.limit;
        gamma = s.gamma;
        rounds = s.rounds.items;
      };
    }) };
}

impl Session {
    /// Makes a session with these values.
    pub fn new(
        contest: Name,
        cards: u32,
        margins: Vec<u32>,
        seed: Seed,
        limit: u32,
        gamma: u32,
        digests: Digests,
        rounds: Vec<DoneRound>,
    ) -> Session
        requires { IsSound (record {
          contest = contest;
          seed = seed;
          digests = digests;
          session = record {
            cards = cards;
            margins = margins.items;
            limit = limit;
            gamma = gamma;
            rounds = rounds.items;
          };
        }) }
        ensures { result ≡ record {
          contest = contest;
          seed = seed;
          digests = digests;
          session = record {
            cards = cards;
            margins = margins.items;
            limit = limit;
            gamma = gamma;
            rounds = rounds.items;
          };
        } }
    {
        Session {
            contest,
            cards,
            margins,
            seed,
            limit,
            gamma,
            digests,
            rounds,
        }
    }

    /// Returns the id of the contest.
    pub fn contest(&self) -> &Name
        ensures { result.now ≡ self.now.contest }
    {
        &self.contest
    }

    /// Returns the number of cards in the manifest.
    pub fn cards(&self) -> u32
        ensures same { result ≡ self.now.session.cards }
        ensures sound { IsSound self.now }
    {
        self.cards
    }

    /// Returns the margin of each claim.
    pub fn margins(&self) -> &[u32]
        ensures { result.now ≡ self.now.session.margins }
    {
        self.margins.as_slice()
    }

    /// Returns the seed of the draws.
    pub fn seed(&self) -> &Seed
        ensures { result.now ≡ self.now.seed }
    {
        &self.seed
    }

    /// Returns the risk limit, in millionths.
    pub fn limit(&self) -> u32
        ensures same { result ≡ self.now.session.limit }
        ensures most { result ≤ GREATEST_LIMIT }
    {
        self.limit
    }

    /// Returns gamma, in thousandths.
    pub fn gamma(&self) -> u32
        ensures { result ≡ self.now.session.gamma }
    {
        self.gamma
    }

    /// Returns the digests of the files.
    pub fn digests(&self) -> &Digests
        ensures { result.now ≡ self.now.digests }
    {
        &self.digests
    }

    /// Returns the finished rounds.
    pub fn rounds(&self) -> &[DoneRound]
        ensures { result.now ≡ self.now.session.rounds }
    {
        self.rounds.as_slice()
    }

    /// Adds a round after the others. If memory runs out, the session doesn't change.
    pub fn add_round(&mut self, round: DoneRound) -> Result<(), Memory>
        requires round { IsRound self.old.session round }
        requires later { All (λ earlier. earlier.draws < round.draws) self.old.session.rounds }
        requires most { round.draws ≤ MOST_DRAWS }
        ensures added { IfOk result (λ _. self.new ≡ with_round self.old round) }
        ensures kept { OnErr result (self.new ≡ self.old) }
    {
        if self.rounds.push(round).is_err() {
            return Err(Memory);
        }
        Ok(())
    }
}
