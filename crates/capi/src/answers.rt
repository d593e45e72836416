// What the calls answer in C: a refusal's number, whether what was asked for is there, and a value.
ghost use Rattle.std.specs.Prelude.{◌≡◌};
ghost use Rattle.loes.specs.Bytes.{Bytes};

use bits::MemberIndex;
use divide::Three;
use encoding::opening;
use loes::Refusal;
use prefix::Span;

// The refusal of a call that is not refused.
const NOT_REFUSED: u32 = 0;

// Whether what was asked for is there.
const FOUND: u32 = 1;

const NOT_FOUND: u32 = 0;

// The value of a key that is present, and of an amount that was posted.
const THERE: usize = 1;

// loes_answer, as include/loes.h lays it out.
#[repr(C)]
#[derive(Clone, Copy)]
pub struct Answer {
    pub refusal: u32,
    pub found: u32,
    pub value: usize,
}

impl Answer {
    ghost use Rattle.loes.specs.Numbers.{number_of};
    ghost use Rattle.query.specs.Answers.{key_answer};
    ghost use Rattle.capi.specs.Coded.{refuses, says, nothing, code_of};

    pub fn refused(k: Refusal) -> Answer
        ensures { result ≡ refuses (number_of k) }
    {
        Answer {
            refusal: u32::from(k.number()),
            found: NOT_FOUND,
            value: 0,
        }
    }

    fn value(n: usize) -> Answer
        ensures { result ≡ says n }
    {
        Answer {
            refusal: NOT_REFUSED,
            found: FOUND,
            value: n,
        }
    }

    fn absent() -> Answer
        ensures { result ≡ nothing }
    {
        Answer {
            refusal: NOT_REFUSED,
            found: NOT_FOUND,
            value: 0,
        }
    }

    // The bytes of a key that was written, if there is one.
    pub fn of_key(written: Result<usize, Refusal>) -> Answer
        ensures { result ≡ code_of (key_answer written) }
    {
        match written {
            Err(k) => Answer::refused(k),
            Ok(0) => Answer::absent(),
            Ok(n) => Answer::value(n),
        }
    }
}

// Whether a key is present, or an amount was posted: 1, or absent.
impl From<Result<bool, Refusal>> for Answer {
    ghost use Rattle.query.specs.Answers.{membership_outcome};
    ghost use Rattle.capi.specs.Coded.{code_of};

    ghost from_gives = { λ there r. r ≡ code_of (membership_outcome there).answer };

    fn from(there: Result<bool, Refusal>) -> Answer {
        match there {
            Err(k) => Answer::refused(k),
            Ok(true) => Answer::value(THERE),
            Ok(false) => Answer::absent(),
        }
    }
}

// An index among the members, or absent.
impl From<Result<Option<MemberIndex>, Refusal>> for Answer {
    ghost use Rattle.query.specs.Answers.{lookup_outcome};
    ghost use Rattle.capi.specs.Coded.{code_of};

    ghost from_gives = { λ index r. r ≡ code_of (lookup_outcome index).answer };

    fn from(index: Result<Option<MemberIndex>, Refusal>) -> Answer {
        match index {
            Err(k) => Answer::refused(k),
            Ok(None) => Answer::absent(),
            Ok(Some(i)) => Answer::value(i.0),
        }
    }
}

// A rank, or the length of an encoding that was written.
impl From<Result<usize, Refusal>> for Answer {
    ghost use Rattle.encoding.specs.Answers.{ranked_outcome};
    ghost use Rattle.capi.specs.Coded.{code_of};

    ghost from_gives = { λ number r. r ≡ code_of (ranked_outcome number).answer };

    fn from(number: Result<usize, Refusal>) -> Answer {
        match number {
            Err(k) => Answer::refused(k),
            Ok(n) => Answer::value(n),
        }
    }
}

// loes_opened, as include/loes.h lays it out.
#[repr(C)]
#[derive(Clone, Copy)]
pub struct Opened {
    pub refusal: u32,
    pub width: u32,
    pub count: usize,
    pub bits: usize,
}

// The numbers of an encoding that was opened.
impl From<Result<opening::Opened<'_>, Refusal>> for Opened {
    ghost use Rattle.encoding.specs.Answers.{told_outcome};
    ghost use Rattle.capi.specs.Coded.{opening_of};

    ghost from_gives = { λ told r. r ≡ opening_of (told_outcome told).answer };

    fn from(told: Result<opening::Opened<'_>, Refusal>) -> Opened {
        match told {
            Err(k) => Opened {
                refusal: u32::from(k.number()),
                width: 0,
                count: 0,
                bits: 0,
            },
            Ok(o) => Opened {
                refusal: NOT_REFUSED,
                width: o.encoding.width as u32,
                count: o.encoding.count,
                bits: o.encoding.bits,
            },
        }
    }
}

// loes_range, as include/loes.h lays it out.
#[repr(C)]
#[derive(Clone, Copy)]
pub struct Range {
    pub refusal: u32,
    pub first: MemberIndex,
    pub count: usize,
}

// The members that begin with a prefix.
impl From<Result<Span, Refusal>> for Range {
    ghost use Rattle.prefix.specs.Answers.{prefixed_outcome};
    ghost use Rattle.capi.specs.Coded.{range_of};

    ghost from_gives = { λ span r. r ≡ range_of (prefixed_outcome span).answer };

    fn from(span: Result<Span, Refusal>) -> Range {
        match span {
            Err(k) => Range {
                refusal: u32::from(k.number()),
                first: MemberIndex(0),
                count: 0,
            },
            Ok(s) => Range {
                refusal: NOT_REFUSED,
                first: s.first,
                count: s.count,
            },
        }
    }
}

// loes_lengths, as include/loes.h lays it out.
#[repr(C)]
#[derive(Clone, Copy)]
pub struct Lengths {
    pub refusal: u32,
    pub both: usize,
    pub only_first: usize,
    pub only_second: usize,
}

// The lengths of three encodings that were written.
impl From<Result<Three, Refusal>> for Lengths {
    ghost use Rattle.std.specs.Prelude.{[], ◌∷◌};
    ghost use Rattle.split.specs.Splitting.{split_outcome};
    ghost use Rattle.capi.specs.Coded.{gives, three_coded};

    ghost from_gives = { λ three r. (x y z : Bytes) → gives r (x ∷ y ∷ z ∷ []) ≡ three_coded (split_outcome three x y z) };

    fn from(three: Result<Three, Refusal>) -> Lengths {
        match three {
            Err(k) => Lengths {
                refusal: u32::from(k.number()),
                both: 0,
                only_first: 0,
                only_second: 0,
            },
            Ok(n) => Lengths {
                refusal: NOT_REFUSED,
                both: n.both,
                only_first: n.only_first,
                only_second: n.only_second,
            },
        }
    }
}
