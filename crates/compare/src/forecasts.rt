// What a forecast says.

// The weights for and against a head at a state, and the percentage.
#[derive(Clone, Copy, PartialEq, Eq)]
pub(crate) struct Forecast {
    pro: usize,
    contra: usize,
    pub(crate) percent: usize,
}

impl Forecast {
    // The percentage is the share of the weight that is for the head; 50 where there is none.
    pub(crate) fn of(pro: usize, contra: usize) -> Forecast {
        let both = pro.saturating_add(contra);
        Forecast {
            pro,
            contra,
            percent: pro.saturating_mul(100).checked_div(both).unwrap_or(50),
        }
    }
}

// What a search answers.
impl From<(u32, u32, u32)> for Forecast {
    fn from((pro, contra, percent): (u32, u32, u32)) -> Forecast {
        Forecast {
            pro: pro as usize,
            contra: contra as usize,
            percent: percent as usize,
        }
    }
}
