// The law of a step.
ghost use Rattle.mdns_core.specs.Laws.{StepsFollow, StatesAreDue};

/// What is kept makes the entry that fits each history that it stands for, and what is then kept stands for the history with it. And
/// the first moment at which something of it is due is the history's.
pub fn steps_follow_the_history()
    ensures steps { StepsFollow }
    ensures due { StatesAreDue }
{}
