//! Steps that are taken once more after an answer that is out of memory.

/// What a step answers that takes memory; taken once more where it is out of memory.
macro_rules! again {
    ($step:expr) => {
        match $step {
            Err(AllocError) => $step,
            done => done,
        }
    };
}

pub(crate) use again;
