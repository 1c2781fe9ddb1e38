// The stream's state and answers. All four words fit a state, so the core's tests are all the tests.
// C reads these structs, so a refusal is a number in them.
#![tactic(auto)]

ghost use Rattle.std.specs.Prelude.{◌≡◌};
ghost use Rattle.stream_words.specs.Promises.{Promises};
ghost use Rattle.stream_words.specs.Streams.{stream_of, words_of, flat_inserted};

use fraction::Fraction;
use greenwald_khanna::Stream;
use refusal::Refusal;
use words::answered;

// A stream's state.
#[repr(C)]
#[derive(Clone, Copy, Default)]
pub struct StreamWords {
    pub num: u32,
    pub den: u32,
    pub n: u32,
    pub held: u32,
}

// A stream, or the refusal's number.
#[repr(C)]
#[derive(Clone, Copy)]
pub struct StreamAnswer {
    pub refusal: u32,
    pub stream: StreamWords,
}

impl From<StreamWords> for Stream {
    ghost from_gives = { λ words stream. stream ≡ stream_of words };

    fn from(words: StreamWords) -> Stream {
        Stream {
            epsilon: Fraction {
                num: words.num,
                den: words.den,
            },
            n: words.n,
            held: words.held,
        }
    }
}

impl From<Stream> for StreamWords {
    ghost from_gives = { λ stream words. words ≡ words_of stream };

    fn from(stream: Stream) -> StreamWords {
        StreamWords {
            num: stream.epsilon.num,
            den: stream.epsilon.den,
            n: stream.n,
            held: stream.held,
        }
    }
}

impl StreamAnswer {
    // What a call that gives a stream answers: the state as it was given where the call is refused.
    pub fn new(answer: Result<Stream, Refusal>, given: StreamWords) -> StreamAnswer
        ensures { result ≡ flat_inserted given answer }
    {
        let (refusal, stream) = answered(answer.map(StreamWords::from), given);
        StreamAnswer { refusal, stream }
    }
}

// The theorems about the definitions: the crate is not proved unless each of them is.
pub fn promises()
    ensures { Promises }
{}
