//! What is shared: a value that stands for histories, and works that each add one turn to them.
ghost use Rattle.std.specs.Prelude.{◌≡◌, List, [], ◌∷◌, ◌++◌};

/// A value that stands for some histories, each a list of turns in their order.
pub trait Tale {
    /// What one turn did, as the history has it. No value of it is made here.
    type Turn;

    // The value stands for the history.
    ghost stands: { List Self.Turn → Self → Type 0 };
}

/// What a thread does to the value in its turn. It adds one turn to each history that the value stands for.
pub trait Work<T: Tale> {
    /// What the thread gets back.
    type Reply;

    // The turn that is added, of the work, the value before, the reply and the value after.
    ghost turn: { Self → T → Self.Reply → T → T.Turn };

    // What the work replies and does, of the same four.
    ghost runs: { Self → T → Self.Reply → T → Type 0 };

    /// Does the work on the value.
    fn run(self, value: &mut T) -> Self::Reply
        ensures runs { runs self value.old result value.new }
        ensures stands { (past : List T.Turn) → T.stands past value.old → T.stands (past ++ turn self value.old result value.new ∷ []) value.new };
}
