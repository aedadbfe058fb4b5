//! The states and turns of lists.

ghost use Rattle.std.specs.Prelude.{◌≡◌};

/// What a state of a list says of its end.
pub trait Ends {
    ghost use Rattle.ui_parse.specs.Reader.{Ending};

    ghost ending: { Ending Self };

    /// Whether the list may end here.
    fn may_end(&self) -> bool
        ensures { result ≡ ending.may self.now };

    /// Whether nothing but the end may follow.
    fn must_end(&self) -> bool
        ensures { result ≡ ending.must self.now };
}

/// How a turn of a list ends: with the list, or before one more part.
#[derive(Drop)]
pub enum Turn<S> {
    Done(S),
    More(S),
}
