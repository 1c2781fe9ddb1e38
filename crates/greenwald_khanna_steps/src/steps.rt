// What the public calls do once their tests are passed, and the test of soundness itself.
ghost use Rattle.std.specs.Prelude.{◌≡◌, true, ◌≤◌, ◌<◌, length, map};
ghost use Rattle.std.proofs.Math.Option.{some};
ghost use Rattle.fraction.specs.Allowed.{is_epsilon};
ghost use Rattle.fraction.specs.Products.{p_of};
ghost use Rattle.greenwald_khanna_theory.specs.State.{answer_at};
ghost use Rattle.greenwald_khanna_theory.specs.Summary.{new_delta};
ghost use Rattle.greenwald_khanna_steps.specs.Limits.{slots};
ghost use Rattle.greenwald_khanna_steps.specs.Sound.{sound, state_of};
ghost use Rattle.greenwald_khanna_steps.specs.Steps.{Accepts, GrowPost, TidyPost, TakePost};

use crate::Stream;
use entries::{Entry, Slot};
use fraction::Fraction;

// The delta of a new entry at `pos` of `held`: 0 at either end, else p with n taken before the increment.
fn new_delta(epsilon: Fraction, n: u32, pos: usize, held: usize) -> u32
    requires { is_epsilon epsilon ≡ true }
    ensures { result ≡ new_delta (p_of epsilon n) pos held }
{
    if pos == 0 || pos == held {
        return 0;
    }
    products::p(epsilon, n)
}

impl Stream {
    // Whether the stream over the lent list is sound. held is tested before anything is read, and nothing beyond it is.
    // That held is 0 exactly when n is needs no test: each g is at least 1, and the g sum to n.
    pub fn is_sound<T: Slot>(self, list: &[T]) -> bool
        requires { length list.now ≤ slots }
        ensures { result ≡ sound self (map T.entry list.now) }
    {
        let held = self.held as usize;
        if !self.epsilon.is_epsilon() || Stream::OBSERVATIONS < self.n || list.len() < held {
            return false;
        }
        let p = products::p(self.epsilon, self.n);
        greenwald_khanna_sound::sound_entries(&list[..held], self.n, p)
    }

    // The first half of an insert: the new entry goes to its place.
    fn grow<T: Slot>(self, list: &mut [T], v: u32) -> Stream
        requires { Accepts self (map T.entry list.old) }
        ensures { GrowPost self (map T.entry list.old) v result (map T.entry list.new) }
    {
        let held = self.held as usize;
        let pos = search::place(&list[..held], v);
        let delta = new_delta(self.epsilon, self.n, pos, held);
        room::insert_at(list, held, pos, T::holding(Entry { v, g: 1, delta }));
        Stream {
            n: self.n + 1,
            held: self.held + 1,
            ..self
        }
    }

    // The second half, when its time has come: the entries are compressed with p of the stream's own n.
    fn tidy<T: Slot>(self, list: &mut [T]) -> Stream
        requires { (is_epsilon self.epsilon ≡ true) × (self.held ≤ length list.old) }
        ensures { TidyPost self (map T.entry list.old) result (map T.entry list.new) }
    {
        let most = products::p(self.epsilon, self.n);
        let held = greenwald_khanna_rows::compress(&mut list[..self.held as usize], most);
        Stream {
            held: held as u32,
            ..self
        }
    }

    // One observation more, once nothing stands against it.
    pub fn take<T: Slot>(self, list: &mut [T], v: u32) -> Stream
        requires { Accepts self (map T.entry list.old) }
        ensures { TakePost self (map T.entry list.old) v result (map T.entry list.new) }
    {
        let grown = self.grow(list, v);
        if grown.n % products::period(self.epsilon) == 0 {
            return grown.tidy(list);
        }
        grown
    }

    // The value that the walk with the rank r and the margin e finds.
    pub fn at_rank<T: Slot>(self, list: &[T], r: u64) -> u32
        requires { (sound self (map T.entry list.now) ≡ true) × (length list.now ≤ slots) × (0 < self.held) × (r ≤ self.n) }
        ensures { answer_at self.epsilon (state_of self (map T.entry list.now)) r ≡ some result }
    {
        let held = self.held as usize;
        let margin = products::floor_mul(self.epsilon, self.n);
        greenwald_khanna_walk::look_up(&list[..held], r + margin)
    }
}
