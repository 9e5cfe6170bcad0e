// The refusals, each with its published number and values.
ghost use Rattle.std.specs.Prelude.{◌≡◌};
ghost use Rattle.model.specs.Numbers.{number_of};
ghost use Rattle.model.specs.declared.refusal.Refusal.TheVariants.{Stray as refused_stray};

// A shown cell that is not below its size: the first such row, and its first such cell.
#[derive(Clone, Copy, PartialEq, Eq, Debug)]
pub struct Stray {
    pub row: u16,
    pub cell: u8,
}

#[derive(Clone, Copy, PartialEq, Eq, Debug)]
pub enum Refusal {
    // a count or a size outside the ranges of a shape
    Shape,
    // an image of the wrong length, with a broken header or shape, or with more rows used than places
    Image,
    // an observation with a class that is not 1 to 3, a cell not below its size, or the wrong number of cells
    Observation,
    // a row that the intake does not admit
    NotAdmitted,
    // no free place
    Full,
    // no such target, or no such value of it
    Head,
    // a feature size above the kind's largest, or more than 1,000,000 bodies
    Bodies,
    // a shown cell of the shape that is not below its size
    Stray(Stray),
    // more rules than whole places in rule memory; the number of rules
    Rules(u32),
    // a state with the wrong number of values, or a value not below its size
    State,
    // a line of no form, a number too large, `T` without stored sizes, or a call before the shape
    Line,
    // an input too long, or a line whose output does not fit: the output bytes written and the lines done before it
    Output { written: usize, lines: usize },
}

impl Refusal {
    // The published number: no discriminant, since some refusals carry values.
    pub fn number(self) -> u8
        ensures { result ≡ number_of self }
    {
        match self {
            Refusal::Shape => 1,
            Refusal::Image => 2,
            Refusal::Observation => 4,
            Refusal::NotAdmitted => 5,
            Refusal::Full => 6,
            Refusal::Head => 7,
            Refusal::Bodies => 8,
            Refusal::Stray(_) => 9,
            Refusal::Rules(_) => 10,
            Refusal::State => 11,
            Refusal::Line => 12,
            Refusal::Output { .. } => 13,
        }
    }
}

// A stray cell that a scan finds rises through listing and forecasting as a refusal.
impl From<Stray> for Refusal {
    ghost from_gives = { λ s r. r ≡ refused_stray s };

    fn from(stray: Stray) -> Refusal {
        Refusal::Stray(stray)
    }
}
