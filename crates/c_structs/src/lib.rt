// The structs of numbers that C is handed, and the answer of each run set out in one.
#![tactic(auto)]

ghost use Rattle.std.specs.Prelude.{◌≡◌};
ghost use Rattle.c_structs.specs.Structs.{fills_of, clip_of, slice_of, split_of, read_of, write_of};

use clip_paths::Totals;
use refusal::Refusal;
use split_loops::LoopTotals;
use string_slice::Contours;
use text::Reading;

// A refusal's number and place, or 0 and 0 and how many fills were written.
#[repr(C)]
#[derive(Clone, Copy)]
pub struct Fills {
    pub number: u64,
    pub place: u64,
    pub count: u64,
}

// The answer of a fills run.
impl From<Result<usize, Refusal>> for Fills {
    ghost from_gives = { λ answer told. told ≡ fills_of answer };

    fn from(answer: Result<usize, Refusal>) -> Fills {
        match answer {
            Ok(written) => Fills {
                number: 0,
                place: 0,
                count: written as u64,
            },
            Err(refusal) => Fills {
                number: refusal.kind.number() as u64,
                place: refusal.place as u64,
                count: 0,
            },
        }
    }
}

// A refusal's number and place, or 0 and 0 and what a clip run found.
#[repr(C)]
#[derive(Clone, Copy)]
pub struct Clip {
    pub number: u64,
    pub place: u64,
    pub paths: u64,
    pub points: u64,
    pub steps: u64,
    pub travel: u64,
}

// The answer of a clip run.
impl From<Result<Totals, Refusal>> for Clip {
    ghost from_gives = { λ answer told. told ≡ clip_of answer };

    fn from(answer: Result<Totals, Refusal>) -> Clip {
        match answer {
            Ok(found) => Clip {
                number: 0,
                place: 0,
                paths: found.paths as u64,
                points: found.points as u64,
                steps: found.steps as u64,
                travel: found.travel,
            },
            Err(refusal) => Clip {
                number: refusal.kind.number() as u64,
                place: refusal.place as u64,
                paths: 0,
                points: 0,
                steps: 0,
                travel: 0,
            },
        }
    }
}

// A refusal's number and place, or 0 and 0 and what a slice run found.
#[repr(C)]
#[derive(Clone, Copy)]
pub struct Slice {
    pub number: u64,
    pub place: u64,
    pub contours: u64,
    pub points: u64,
}

// The answer of a slice run.
impl From<Result<Contours, Refusal>> for Slice {
    ghost from_gives = { λ answer told. told ≡ slice_of answer };

    fn from(answer: Result<Contours, Refusal>) -> Slice {
        match answer {
            Ok(found) => Slice {
                number: 0,
                place: 0,
                contours: found.contours as u64,
                points: found.points as u64,
            },
            Err(refusal) => Slice {
                number: refusal.kind.number() as u64,
                place: refusal.place as u64,
                contours: 0,
                points: 0,
            },
        }
    }
}

// A refusal's number and place, or 0 and 0 and what a split run found.
#[repr(C)]
#[derive(Clone, Copy)]
pub struct Split {
    pub number: u64,
    pub place: u64,
    pub loops: u64,
    pub points: u64,
}

// The answer of a split run.
impl From<Result<LoopTotals, Refusal>> for Split {
    ghost from_gives = { λ answer told. told ≡ split_of answer };

    fn from(answer: Result<LoopTotals, Refusal>) -> Split {
        match answer {
            Ok(found) => Split {
                number: 0,
                place: 0,
                loops: found.loops as u64,
                points: found.points as u64,
            },
            Err(refusal) => Split {
                number: refusal.kind.number() as u64,
                place: refusal.place as u64,
                loops: 0,
                points: 0,
            },
        }
    }
}

// A refusal's number and place, or 0 and 0, how many numbers a text's segments have, and its choices.
#[repr(C)]
#[derive(Clone, Copy)]
pub struct Read {
    pub number: u64,
    pub place: u64,
    pub count: u64,
    pub rule: i32,
    pub invert: i32,
    pub boundary: i32,
}

// The answer of the reading of a text.
impl From<Result<Reading, Refusal>> for Read {
    ghost from_gives = { λ answer told. told ≡ read_of answer };

    fn from(answer: Result<Reading, Refusal>) -> Read {
        match answer {
            Ok(read) => Read {
                number: 0,
                place: 0,
                count: read.count as u64,
                rule: read.choices.rule,
                invert: read.choices.invert,
                boundary: read.choices.boundary,
            },
            Err(refusal) => Read {
                number: refusal.kind.number() as u64,
                place: refusal.place as u64,
                count: 0,
                rule: 0,
                invert: 0,
                boundary: 0,
            },
        }
    }
}

// A refusal's number and place, or 0 and 0 and how many bytes were written.
#[repr(C)]
#[derive(Clone, Copy)]
pub struct Write {
    pub number: u64,
    pub place: u64,
    pub count: u64,
}

// The answer of the writer or the mover of texts.
impl From<Result<usize, Refusal>> for Write {
    ghost from_gives = { λ answer told. told ≡ write_of answer };

    fn from(answer: Result<usize, Refusal>) -> Write {
        match answer {
            Ok(written) => Write {
                number: 0,
                place: 0,
                count: written as u64,
            },
            Err(refusal) => Write {
                number: refusal.kind.number() as u64,
                place: refusal.place as u64,
                count: 0,
            },
        }
    }
}
