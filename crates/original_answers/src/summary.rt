// What a case runs: one of the four summaries over lent memory, from opening to its last observation.
use crate::case::{Case, Lent};
use crate::kind::Kind;
use ckms::CKMS;
use ckms_store::Store;
use greenwald_khanna::Stream;
use histogram::Histogram;
use refusal::Refusal;

// A store's observation that stands for a compression.
const COMPRESS: u32 = 4294967295;

// One of the four.
#[derive(Clone, Copy)]
pub enum Summary {
    Stream(Stream),
    Histogram(Histogram),
    Store(Store),
    CKMS(CKMS),
}

// A store takes a value, or is compressed.
fn store_after(store: Store, lent: &mut Lent<'_>, v: u32) -> Result<Store, Refusal> {
    if v == COMPRESS {
        return ckms_store::compress(store, lent.rows, lent.numbers);
    }
    ckms_store::insert(store, lent.rows, lent.numbers, v)
}

impl Summary {
    // Opens a case.
    pub fn open(case: Case<'_>, lent: &mut Lent<'_>) -> Result<Summary, Refusal> {
        let error = case.error();
        Ok(match case.kind {
            Kind::Stream => Summary::Stream(Stream::open(error, lent.rows)?),
            Kind::Histogram => Summary::Histogram(Histogram::open(case.bounds(), lent.numbers)?),
            Kind::Store => {
                Summary::Store(Store::open(error, case.word(2), lent.rows, lent.numbers)?)
            }
            Kind::CKMS => Summary::CKMS(CKMS::open(error, lent.rows, lent.numbers)?),
        })
    }

    // One observation more.
    fn take(self, case: Case<'_>, lent: &mut Lent<'_>, v: u32) -> Result<Summary, Refusal> {
        Ok(match self {
            Summary::Stream(s) => Summary::Stream(greenwald_khanna::insert(s, lent.rows, v)?),
            Summary::Histogram(h) => {
                Summary::Histogram(histogram::insert(h, case.bounds(), lent.numbers, v)?)
            }
            Summary::Store(s) => Summary::Store(store_after(s, lent, v)?),
            Summary::CKMS(c) => Summary::CKMS(ckms::insert(c, lent.rows, lent.numbers, v)?),
        })
    }

    // A case's summary after its last observation, or the refusal that ended it.
    pub fn of(case: Case<'_>, lent: &mut Lent<'_>) -> Result<Summary, Refusal> {
        let mut summary = Summary::open(case, lent)?;
        for v in case.observations {
            summary = summary.take(case, lent, *v)?;
        }
        Ok(summary)
    }
}
