// A finished round of draws.
ghost use Rattle.std.specs.Prelude.{◌≡◌};

use km_risk::Counts;
use std::marker::Model;

/// A finished round: all draws so far, and for each claim the counts over these draws and the printed risk.
#[derive(Drop)]
pub struct DoneRound {
    draws: u32,
    counts: Vec<Counts>,
    risks: Vec<u64>,
}

impl Model for DoneRound {
    ghost use Rattle.session_state.specs.Sessions.{Round};

    ghost Value = { Round };

    ghost view = { λ r. record {
      draws = r.draws;
      counts = r.counts.items;
      risks = r.risks.items;
    } };
}

impl DoneRound {
    /// Makes the round with this number of draws in total, and with these counts and printed risks, one for each claim.
    pub fn new(draws: u32, counts: Vec<Counts>, risks: Vec<u64>) -> DoneRound
        ensures { result ≡ record { draws = draws; counts = counts.items; risks = risks.items } }
    {
        DoneRound {
            draws,
            counts,
            risks,
        }
    }

    /// Returns the number of draws so far, including those of earlier rounds.
    pub fn draws(&self) -> u32
        ensures { result ≡ self.now.draws }
    {
        self.draws
    }

    /// Returns the counts of each claim.
    pub fn counts(&self) -> &[Counts]
        ensures { result.now ≡ self.now.counts }
    {
        self.counts.as_slice()
    }

    /// Returns the printed risk of each claim, in units of 10^-18.
    pub fn risks(&self) -> &[u64]
        ensures { result.now ≡ self.now.risks }
    {
        self.risks.as_slice()
    }
}
