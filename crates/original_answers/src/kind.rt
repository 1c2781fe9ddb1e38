// What a case replays, and the number that the list has for it.

// One of the four summaries.
#[derive(Clone, Copy, Debug, PartialEq, Eq)]
pub enum Kind {
    Stream,
    Histogram,
    Store,
    CKMS,
}

// A number that no kind has.
#[derive(Clone, Copy, Debug, PartialEq, Eq)]
pub struct UnknownKind(pub u32);

impl TryFrom<u32> for Kind {
    type Error = UnknownKind;

    fn try_from(number: u32) -> Result<Kind, UnknownKind> {
        match number {
            1 => Ok(Kind::Stream),
            2 => Ok(Kind::Histogram),
            3 => Ok(Kind::Store),
            4 => Ok(Kind::CKMS),
            _ => Err(UnknownKind(number)),
        }
    }
}

impl Kind {
    // How many of a case's words stand before its observations: a histogram says it by its first word.
    pub fn head_len(self, words: &[u32]) -> usize {
        match self {
            Kind::Stream | Kind::CKMS => 2,
            Kind::Histogram => words.first().copied().unwrap_or(0) as usize + 1,
            Kind::Store => 3,
        }
    }
}
