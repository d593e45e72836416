// The cursor as C has it: a state's number, and the offsets.
ghost use Rattle.std.specs.Prelude.{ℕ, ◌≡◌, List};
ghost use Rattle.loes.specs.Bytes.{Bytes};
ghost use Rattle.capi.specs.Steps.{state_read};

use crate::answers::Answer;
use bits::EdgeOffset;
use cursor::{State, Stepped, Walked};
use encoding::Encoding;

// loes_cursor, as include/loes.h lays it out.
#[repr(C)]
#[derive(Clone, Copy)]
pub struct Cursor {
    pub state: usize,
    pub offsets: [EdgeOffset; Encoding::MAX_WIDTH],
}

// A step by value: the cursor that it leaves, and its answer.
#[derive(Clone, Copy)]
pub struct CursorAnswer {
    pub cursor: Cursor,
    pub answer: Answer,
}

// A step over lent offsets: its answer, and the state that it leaves.
#[repr(C)]
#[derive(Clone, Copy)]
pub struct StateAnswer {
    pub answer: Answer,
    pub state: usize,
}

// The state of a number, if it is one.
pub fn state_of(number: usize) -> Option<State>
    ensures { result ≡ state_read number }
{
    match number {
        0 => Some(State::Before),
        1 => Some(State::At),
        2 => Some(State::After),
        _ => None,
    }
}

impl From<Stepped> for CursorAnswer {
    ghost use Rattle.cursor.specs.Steps.{stepped_of};
    ghost use Rattle.capi.specs.Steps.{moves, step_coded};

    ghost from_gives = { λ s r. (out : Bytes) → moves r out ≡ step_coded (stepped_of s out) };

    fn from(s: Stepped) -> CursorAnswer {
        let offsets = s.cursor.offsets;
        CursorAnswer {
            cursor: Cursor {
                state: s.cursor.state as usize,
                offsets,
            },
            answer: Answer::of_key(s.answer),
        }
    }
}

impl From<Walked> for StateAnswer {
    ghost use Rattle.cursor.specs.Steps.{walked_of};
    ghost use Rattle.capi.specs.Steps.{step_gives, step_coded};

    ghost from_gives = { λ w r. (os : List ℕ) (out : Bytes) → step_gives r.answer r.state os out ≡ step_coded (walked_of w os out) };

    fn from(w: Walked) -> StateAnswer {
        StateAnswer {
            answer: Answer::of_key(w.answer),
            state: w.state as usize,
        }
    }
}
