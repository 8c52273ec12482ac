//! Rankings: ranks of acceptances and laps of events over the tables of a network.

ghost use Rattle.std.specs.Prelude.{◌≡◌, map};

use std::marker::Model;

/// The ranks and the laps of one component: for each node a rank for each acceptance, and a lap for each possible event.
/// The type asks for no number of them.
pub struct PartRanks {
    ranks: Vec<Vec<i64>>,
    laps: Vec<Vec<u8>>,
}

impl Drop for PartRanks {
    fn drop(self) {
        let PartRanks { ranks, laps } = self;
    }
}

impl Model for PartRanks {
    ghost use Rattle.std.specs.Prelude.{map};
    ghost use Rattle.csp_tables.specs.Ranking.{PartRanks as Ranks};

    ghost Value = { Ranks };

    ghost view = { λ r. record {
      ranks = map (λ row. row.items) r.ranks.items;
      laps = map (λ row. row.items) r.laps.items;
    } };
}

impl PartRanks {
    /// The ranks for each node, and the laps for each node.
    pub fn new(ranks: Vec<Vec<i64>>, laps: Vec<Vec<u8>>) -> PartRanks
        ensures { result ≡ record {
          ranks = map (λ row. row.items) ranks.items;
          laps = map (λ row.
              row.items) laps.items;
        } }
    {
        PartRanks { ranks, laps }
    }

    /// For each node the ranks of its acceptances.
    pub fn ranks(&self) -> &[Vec<i64>]
        ensures { map (λ row. row.items) result.now ≡ self.now.ranks }
    {
        self.ranks.as_slice()
    }

    /// For each node the laps of its events, each 0 or 1.
    pub fn laps(&self) -> &[Vec<u8>]
        ensures { map (λ row. row.items) result.now ≡ self.now.laps }
    {
        self.laps.as_slice()
    }
}

/// Ranks and laps for each component of a network, and the scale by which a difference of laps weighs against ranks.
pub struct Ranking {
    scale: i64,
    parts: Vec<PartRanks>,
}

impl Drop for Ranking {
    fn drop(self) {
        let Ranking { scale, parts } = self;
    }
}

impl Model for Ranking {
    ghost use Rattle.csp_tables.specs.Ranking.{Ranking as RankingValue};

    ghost Value = { RankingValue };

    ghost view = { λ r. record { scale = r.scale; parts = r.parts.items } };
}

impl Ranking {
    /// The ranking with this scale, and with the ranks and laps of each component.
    pub fn new(scale: i64, parts: Vec<PartRanks>) -> Ranking
        ensures { result ≡ record { scale = scale; parts = parts.items } }
    {
        Ranking { scale, parts }
    }

    /// The scale.
    pub fn scale(&self) -> i64
        ensures { result ≡ self.now.scale }
    {
        self.scale
    }

    /// The ranks and laps of each component, in order.
    pub fn parts(&self) -> &[PartRanks]
        ensures { result.now ≡ self.now.parts }
    {
        self.parts.as_slice()
    }
}
