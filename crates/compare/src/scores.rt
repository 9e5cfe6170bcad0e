// How many answers agree.
use model::Sense;
use std::fmt;

#[derive(Clone, Copy, Default)]
pub(crate) struct Score {
    asked: usize,
    agreeing: usize,
    // the rules, or the percentages, that the definitions give, added up
    total: usize,
}

impl Score {
    pub(crate) fn count(&mut self, agrees: bool, amount: usize) {
        self.asked = self.asked.saturating_add(1);
        self.agreeing = self.agreeing.saturating_add(usize::from(agrees));
        self.total = self.total.saturating_add(amount);
    }

    pub(crate) fn plus(self, other: Score) -> Score {
        Score {
            asked: self.asked.saturating_add(other.asked),
            agreeing: self.agreeing.saturating_add(other.agreeing),
            total: self.total.saturating_add(other.total),
        }
    }
}

impl fmt::Display for Score {
    fn fmt<W: fmt::Write>(&self, f: &mut fmt::Formatter<W>) -> fmt::Result {
        let Score {
            asked,
            agreeing,
            total,
        } = self;
        write!(f, "{asked} asked, {agreeing} agree, {total}")
    }
}

// The scores of a condition kind.
#[derive(Clone, Copy, Default)]
pub(crate) struct Scores {
    pub(crate) can: Score,
    pub(crate) cannot: Score,
    pub(crate) forecast: Score,
}

impl Scores {
    // The score of the listings of a sense.
    pub(crate) fn of(&mut self, sense: Sense) -> &mut Score {
        match sense {
            Sense::Can => &mut self.can,
            Sense::Cannot => &mut self.cannot,
        }
    }

    // The listings of both senses.
    pub(crate) fn listings(self) -> Score {
        self.can.plus(self.cannot)
    }
}
