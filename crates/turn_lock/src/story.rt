//! Values with a list of entries, and jobs on them.
ghost use Rattle.std.specs.Prelude.{◌≡◌, List, length};
ghost use Rattle.turn_lock.specs.Story.{GrowsByOneAtMost};

/// A value with a base, which no job changes, and a list of entries, to which jobs add. Both are
/// for contracts alone, so no value of the two types need exist.
pub trait Storied {
    type Base;

    type Entry;

    ghost base: { Self → Self.Base };

    ghost story: { Self → List Self.Entry };

    /// Returns the number of entries in the value's list.
    fn count(&self) -> u64
        ensures { result ≡ length (story self.now) };
}

/// What is done to a value in one turn. `may_run` is the condition of the run; `meets` is what the
/// run ensures, of the job, the base, the entries before, the entries after and the result.
pub trait Job<T: Storied> {
    type Out;

    ghost may_run: { Self → Type 0 };

    ghost meets: { Self → T.Base → List T.Entry → List T.Entry → Self.Out → Type 0 };

    /// Works on the value, adds one entry at most, and returns a result.
    fn run(self, value: &mut T) -> Self::Out
        requires { may_run self }
        ensures base { T.base value.new ≡ T.base value.old }
        ensures story { GrowsByOneAtMost (T.story value.old) (T.story value.new) }
        ensures test { meets self (T.base value.old) (T.story value.old)
            (T.story value.new) result };
}
