// The replies as C has them: structs of numbers (include/pulpgarnet.h). Each begins with the refusal's number, 0 for none, the record that it carries,
// which the header calls `record`, and which edge of it; then come the call's own, 0 where it is refused.
ghost use Rattle.std.specs.Prelude.{◌≡◌, []};
ghost use Rattle.rewriting.specs.Script.{run_of};
ghost use Rattle.pulpgarnet.specs.Replies.{told_of, checked_reply, valued_reply, reported_reply, placed_reply, stepped_reply, ran_reply, written_reply, deep_reply};

use majority::Counts;
use questions::Size;
use refusals::Refusal;
use rewriting::Progress;

#[repr(C)]
#[derive(Clone, Copy)]
pub struct Checked {
    pub refusal: u32,
    pub at: usize,
    pub edge: u32,
    pub inputs: usize,
    pub gates: usize,
    pub outputs: usize,
}

#[repr(C)]
#[derive(Clone, Copy)]
pub struct Valued {
    pub refusal: u32,
    pub at: usize,
    pub edge: u32,
    pub outputs: u32,
}

#[repr(C)]
#[derive(Clone, Copy)]
pub struct Reported {
    pub refusal: u32,
    pub at: usize,
    pub edge: u32,
    pub size: usize,
    pub depth: usize,
}

#[repr(C)]
#[derive(Clone, Copy)]
pub struct Placed {
    pub refusal: u32,
    pub at: usize,
    pub edge: u32,
    pub places: usize,
}

#[repr(C)]
#[derive(Clone, Copy)]
pub struct Stepped {
    pub refusal: u32,
    pub at: usize,
    pub edge: u32,
    pub used: usize,
}

#[repr(C)]
#[derive(Clone, Copy)]
pub struct Ran {
    pub refusal: u32,
    pub at: usize,
    pub edge: u32,
    pub taken: usize,
    pub used: usize,
}

#[repr(C)]
#[derive(Clone, Copy)]
pub struct Written {
    pub refusal: u32,
    pub at: usize,
    pub edge: u32,
    pub length: usize,
}

#[repr(C)]
#[derive(Clone, Copy)]
pub struct Deep {
    pub refusal: u32,
    pub at: usize,
    pub edge: u32,
    pub depth: usize,
}

// The three numbers that a reply begins with.
#[derive(Clone, Copy)]
struct Told {
    refusal: u32,
    at: usize,
    edge: u32,
}

impl From<Option<Refusal>> for Told {
    ghost from_gives = { λ end told. told ≡ told_of end };

    fn from(end: Option<Refusal>) -> Told {
        match end {
            Some(refusal) => Told {
                refusal: refusal.number(),
                at: refusal.record(),
                edge: refusal.edge(),
            },
            None => Told {
                refusal: 0,
                at: 0,
                edge: 0,
            },
        }
    }
}

impl From<Result<Counts, Refusal>> for Checked {
    ghost from_gives = { λ answer reply. reply ≡ checked_reply answer };

    fn from(answer: Result<Counts, Refusal>) -> Checked {
        let Told { refusal, at, edge } = Told::from(answer.err());
        let counts = answer.unwrap_or(Counts {
            inputs: 0,
            gates: 0,
            outputs: 0,
        });
        Checked {
            refusal,
            at,
            edge,
            inputs: counts.inputs,
            gates: counts.gates,
            outputs: counts.outputs,
        }
    }
}

impl From<Result<u32, Refusal>> for Valued {
    ghost from_gives = { λ answer reply. reply ≡ valued_reply answer };

    fn from(answer: Result<u32, Refusal>) -> Valued {
        let Told { refusal, at, edge } = Told::from(answer.err());
        Valued {
            refusal,
            at,
            edge,
            outputs: answer.unwrap_or(0),
        }
    }
}

impl From<Result<Size, Refusal>> for Reported {
    ghost from_gives = { λ answer reply. reply ≡ reported_reply answer };

    fn from(answer: Result<Size, Refusal>) -> Reported {
        let Told { refusal, at, edge } = Told::from(answer.err());
        let size = answer.unwrap_or(Size { gates: 0, depth: 0 });
        Reported {
            refusal,
            at,
            edge,
            size: size.gates,
            depth: size.depth,
        }
    }
}

impl From<Result<usize, Refusal>> for Placed {
    ghost from_gives = { λ answer reply. reply ≡ placed_reply answer };

    fn from(answer: Result<usize, Refusal>) -> Placed {
        let Told { refusal, at, edge } = Told::from(answer.err());
        Placed {
            refusal,
            at,
            edge,
            places: answer.unwrap_or(0),
        }
    }
}

impl From<Result<usize, Refusal>> for Stepped {
    ghost from_gives = { λ answer reply. reply ≡ stepped_reply answer };

    fn from(answer: Result<usize, Refusal>) -> Stepped {
        let Told { refusal, at, edge } = Told::from(answer.err());
        Stepped {
            refusal,
            at,
            edge,
            used: answer.unwrap_or(0),
        }
    }
}

// A script's own numbers stand also where it was stopped.
impl From<Progress> for Ran {
    ghost from_gives = { λ progress reply. reply ≡ ran_reply (run_of progress []) };

    fn from(progress: Progress) -> Ran {
        let Told { refusal, at, edge } = Told::from(progress.refusal);
        Ran {
            refusal,
            at,
            edge,
            taken: progress.taken,
            used: progress.used,
        }
    }
}

impl From<Result<usize, Refusal>> for Written {
    ghost from_gives = { λ answer reply. reply ≡ written_reply answer };

    fn from(answer: Result<usize, Refusal>) -> Written {
        let Told { refusal, at, edge } = Told::from(answer.err());
        Written {
            refusal,
            at,
            edge,
            length: answer.unwrap_or(0),
        }
    }
}

impl From<Result<usize, Refusal>> for Deep {
    ghost from_gives = { λ answer reply. reply ≡ deep_reply answer };

    fn from(answer: Result<usize, Refusal>) -> Deep {
        let Told { refusal, at, edge } = Told::from(answer.err());
        Deep {
            refusal,
            at,
            edge,
            depth: answer.unwrap_or(0),
        }
    }
}
