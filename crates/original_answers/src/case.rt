// A case of the list, and the memory that it is lent.
ghost use Rattle.std.specs.Prelude.{◌<◌, length, IfSome};

use crate::kind::Kind;
use ckms_store::Store;
use fraction::Fraction;

// A case: its kind, the words before its observations, and those.
#[derive(Clone, Copy)]
pub struct Case<'a> {
    pub kind: Kind,
    head: &'a [u32],
    pub observations: &'a [u32],
}

// The rows of a case's entries; and its numbers: a histogram's counts, or the lengths of a store's or a CKMS's blocks.
#[derive(Drop)]
pub struct Lent<'a> {
    pub rows: &'a mut [[u32; 3]],
    pub numbers: &'a mut [u32],
}

impl<'a> Case<'a> {
    // The first case of a list, and the list behind it. None where the list is cut, where no kind has the number, where the case lacks words that
    // its kind asks, and where it has more of them than there are places for.
    pub fn first_of(list: &'a [u32]) -> Option<(Case<'a>, &'a [u32])>
        ensures { IfSome result (λ found. length found.1.now < length list.now) }
    {
        let ([number, count], rest) = list.split_first_chunk::<2>()?;
        let kind = Kind::try_from(*number).ok()?;
        let (words, behind) = rest.split_at_checked(*count as usize)?;
        let (head, observations) = words.split_at_checked(kind.head_len(words))?;
        if head.len() > Store::SLOTS {
            return None;
        }
        Some((
            Case {
                kind,
                head,
                observations,
            },
            behind,
        ))
    }

    // Word i before the observations, and 0 where there is none.
    pub fn word(self, i: usize) -> u32 {
        self.head.get(i).copied().unwrap_or(0)
    }

    // The error that a stream, a store and a CKMS open with.
    pub fn error(self) -> Fraction {
        Fraction {
            num: self.word(0),
            den: self.word(1),
        }
    }

    // A histogram's bounds.
    pub fn bounds(self) -> &'a [u32] {
        self.head.get(1..).unwrap_or(&[])
    }

    // How many of the lent numbers the case takes: a histogram one more than it has bounds, any other all.
    pub fn places(self) -> usize {
        match self.kind {
            Kind::Histogram => self.head.len(),
            _ => Store::SLOTS,
        }
    }

    // The line that the case starts with; a store's block size has a line of its own.
    pub fn say_head(self) {
        let first = self.word(0);
        let second = self.word(1);
        match self.kind {
            Kind::Stream => say::pair(b"stream ", first, b"/", second),
            Kind::Histogram => say::line(b"histogram ", first),
            Kind::Store => {
                say::pair(b"store ", first, b"/", second);
                say::line(b"size ", self.word(2));
            }
            Kind::CKMS => say::pair(b"ckms ", first, b"/", second),
        }
    }
}
