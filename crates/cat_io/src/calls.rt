// Calls that are numbered from 1, of which the listed fail.
ghost use Rattle.std.specs.Prelude.{◌≡◌};
ghost use Rattle.cat_io.specs.Numbered.{numbered, after_call, fails_next};

/// The number of the last call, and the numbers of those that fail. The last number of a u64 stays.
#[derive(Drop)]
pub struct Calls {
    made: u64,
    failing: Vec<u64>,
}

impl Calls {
    pub fn new(failing: Vec<u64>) -> Calls
        ensures { numbered result ≡ record { made = 0; failing = failing.items } }
    {
        Calls { made: 0, failing }
    }

    /// Counts one call more. Whether it is to fail.
    pub fn fails_next(&mut self) -> bool
        ensures result { result ≡ fails_next (numbered self.old) }
        ensures counted { numbered self.new ≡ after_call (numbered self.old) }
    {
        self.made = self.made.saturating_add(1);
        self.failing.contains(&self.made)
    }
}
