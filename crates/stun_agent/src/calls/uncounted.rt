//! A token that allows code to search or read the requests without counting the reads. `poll` must
//! count each read (see `poll::reads`), so only the modules below `calls`, of which `poll` is none,
//! can create the token.

/// A token that allows code to search or read the requests without counting the reads.
#[derive(Clone, Copy)]
pub(crate) struct Uncounted {
    leave: (),
}

impl Uncounted {
    pub(super) fn new() -> Self {
        Uncounted { leave: () }
    }
}
