// The stream over a lent list of entry structs, as free functions: the core's calls, with the core's contracts said of the list itself.
// Each is the generic call at entries. They stay beside it, since README names them, and document 01 asks for few thin functions over a core.
#![tactic(auto)]

ghost use Rattle.std.specs.Prelude.{◌≡◌};
ghost use Rattle.greenwald_khanna_told.specs.Answers.{told_p, told_n, told_s};
ghost use Rattle.greenwald_khanna_steps.specs.Opening.{OpenPost};
ghost use Rattle.greenwald_khanna.specs.Posts.{InsertPost, QuantilePost};
ghost use Rattle.greenwald_khanna_face.specs.Promises.{Promises};

use entries::Entry;
use fraction::Fraction;
use greenwald_khanna::Stream;
use refusal::Refusal;

// A fresh stream over the lent list, whose slots become zero. Refused: SLOTS, EPSILON.
pub fn open(epsilon: Fraction, list: &mut [Entry]) -> Result<Stream, Refusal>
    ensures { OpenPost epsilon list.old result list.new }
{
    Stream::open(epsilon, list)
}

// One observation more. Refused: SLOTS, DAMAGED, COUNT, FULL.
pub fn insert(stream: Stream, list: &mut [Entry], v: u32) -> Result<Stream, Refusal>
    ensures { InsertPost stream list.old v result list.new }
{
    greenwald_khanna::insert(stream, list, v)
}

// The φ-quantile. Refused: SLOTS, DAMAGED, PHI, EMPTY.
pub fn quantile(stream: Stream, list: &[Entry], phi: Fraction) -> Result<u32, Refusal>
    ensures { QuantilePost stream list.now phi result }
{
    greenwald_khanna::quantile(stream, list, phi)
}

// p = ⌊2εn⌋. Refused: SLOTS, DAMAGED.
pub fn p(stream: Stream, list: &[Entry]) -> Result<u32, Refusal>
    ensures { result ≡ told_p stream list.now }
{
    greenwald_khanna::p(stream, list)
}

// How many observations were accepted. Refused: SLOTS, DAMAGED.
pub fn n(stream: Stream, list: &[Entry]) -> Result<u32, Refusal>
    ensures { result ≡ told_n stream list.now }
{
    greenwald_khanna::n(stream, list)
}

// How many entries are held. Refused: SLOTS, DAMAGED.
pub fn s(stream: Stream, list: &[Entry]) -> Result<u32, Refusal>
    ensures { result ≡ told_s stream list.now }
{
    greenwald_khanna::s(stream, list)
}

// The theorems about the definitions are in proofs/. This contract states them, so that none can go missing.
pub fn promises()
    ensures { Promises }
{}
